//! The fixed script.
ghost use Rattle.std.specs.Prelude.{◌≡◌, ◌++◌, ◌∷◌, [], List, IfOk, OnOk};
ghost use Rattle.weld_calls.specs.declared.call.Call.{Call};
ghost use Rattle.weld_script.specs.declared.made.Made.{Made};
ghost use Rattle.weld_script.specs.declared.made.Made.TheVariants as makes;
ghost use Rattle.weld_script.specs.declared.made.Declared.TheVariants.{Table};
ghost use Rattle.weld_script.specs.Soak.{table_and_columns, where_x_is_large, soak_made, soak_shown, number_type};

use crate::{Declared, Ids, Made, MadeList, Script};
use std::alloc::{AllocError, Global};
use weld_calls::Call;
use weld_data::{BinOp, Kind, Names, Text};
use weld_tree::{Ty, Tys};

/// The table's declaration.
fn table(alloc: Global) -> Result<Declared, AllocError>
    ensures { IfOk result (λ declared. declared ≡ Table ((107 ∷ []) ∷ (120 ∷ []) ∷ (121 ∷ []) ∷ [])
        (number_type ∷ number_type ∷ number_type ∷ [])) }
{
    let mut names = Names::new(alloc);
    names.push(Text::copy_of(alloc, b"k")?)?;
    names.push(Text::copy_of(alloc, b"x")?)?;
    names.push(Text::copy_of(alloc, b"y")?)?;
    let mut types = Tys::new(alloc);
    types.push(Ty::scalar(Kind::I64))?;
    types.push(Ty::scalar(Kind::I64))?;
    types.push(Ty::scalar(Kind::I64))?;
    Ok(Declared::Table(names, types))
}

/// One call more.
fn call(alloc: Global, made: &mut MadeList, call: Call, ids: &[u32]) -> Result<(), AllocError>
    ensures { OnOk result (made.new ≡ made.old ++ makes.Call call ids.now ∷ []) }
{
    made.push(Made::Call(call, Ids::copy_of(alloc, ids)?))
}

/// The table and its columns.
fn columns(alloc: Global) -> Result<MadeList, AllocError>
    ensures { IfOk result (λ made. made ≡ table_and_columns) }
{
    let mut made = MadeList::new(alloc);
    made.push(Made::Declared(table(alloc)?))?;
    call(alloc, &mut made, Call::Column(0), &[0])?;
    call(alloc, &mut made, Call::Column(1), &[0])?;
    call(alloc, &mut made, Call::Column(2), &[0])?;
    Ok(made)
}

/// The columns where x is at least 10.
fn filters(alloc: Global, made: &mut MadeList) -> Result<(), AllocError>
    ensures { OnOk result (made.new ≡ made.old ++ where_x_is_large) }
{
    made.push(Made::Literal(Kind::I64, 10))?;
    call(alloc, made, Call::Compare(BinOp::Ge), &[2, 4])?;
    call(alloc, made, Call::Filter, &[2, 5])?;
    call(alloc, made, Call::Filter, &[3, 5])?;
    call(alloc, made, Call::Filter, &[1, 5])
}

/// The objects that the script makes.
fn made(alloc: Global) -> Result<MadeList, AllocError>
    ensures { IfOk result (λ made. made ≡ soak_made) }
{
    let mut made = columns(alloc)?;
    filters(alloc, &mut made)?;
    call(alloc, &mut made, Call::Dot, &[6, 7])?;
    call(alloc, &mut made, Call::GroupSum, &[8, 6])?;
    call(alloc, &mut made, Call::Count, &[5])?;
    Ok(made)
}

/// The script.
#[tactic(auto, using(crate::proofs::Fixed::is_script))]
pub(crate) fn soak_script(alloc: Global) -> Result<Script, AllocError>
    ensures made { IfOk result (λ script. script.made ≡ soak_made) }
    ensures shown { IfOk result (λ script. script.shown ≡ soak_shown) }
{
    let made = made(alloc)?;
    let shown = Ids::copy_of(alloc, &[9, 10, 11])?;
    Ok(Script { made, shown })
}
