//! Legs of loops.
ghost use Rattle.std.specs.Prelude.{◌≡◌, Some, None, IfOk, OnOk, IfErr};
ghost use Rattle.weld_reduce.specs.declared.stop.Stop.TheVariants.{Broken, Memory};
ghost use Rattle.weld_reduce.specs.Forms as forms;

use crate::stop::Stop;
use crate::value::Value;
use crate::values::Values;
use std::alloc::Global;
use weld_tree::{Leg, Legs};

/// `iter(t, u, v, x)`
pub fn iter(values: &mut Values) -> Result<(), Stop>
    ensures ok { OnOk result (forms.iter values.old ≡ Some values.new) }
    ensures broken { IfErr result (λ stop. stop ≡ Broken → forms.iter values.old ≡ None) }
{
    let stride = values.pop_expr()?;
    let end = values.pop_expr()?;
    let start = values.pop_expr()?;
    let vector = values.pop_expr()?;
    values.pop_token()?;
    values.push(Value::Leg(Leg::Strided(vector, start, end, stride)))?;
    Ok(())
}

/// One more leg, of the legs of a `zip`, or of none yet.
pub fn next_leg(alloc: Global, values: &mut Values) -> Result<(), Stop>
    ensures ok { OnOk result (forms.next_leg values.old ≡ Some values.new) }
    ensures broken { IfErr result (λ stop. stop ≡ Broken → forms.next_leg values.old ≡ None) }
{
    let leg = values.pop_leg()?;
    let mut legs = open_legs(alloc, values)?;
    legs.push(leg)?;
    values.push(Value::Legs(legs))?;
    Ok(())
}

/// The legs of a `zip` that isn't closed; else none yet.
fn open_legs(alloc: Global, values: &mut Values) -> Result<Legs, Stop>
    ensures ok { IfOk result (λ ls. forms.open_legs values.old ≡ (ls, values.new)) }
    ensures memory { IfErr result (λ stop. stop ≡ Memory) }
{
    if values.has_legs() {
        values.pop_legs()
    } else {
        Ok(Legs::new(alloc))
    }
}
