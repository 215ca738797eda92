//! The turns of an `iterate`.

ghost use Rattle.std.specs.Prelude.{IfOk};
ghost use Rattle.weld_data.specs.View.{view_val};
ghost use Rattle.weld_meaning.specs.Thing.{plain};
ghost use Rattle.weld_eval.specs.ThingView.{held_of};
ghost use Rattle.weld_eval_forms.specs.FormTakes.{IsTurn, IsNext, TurnAnswer};

use std::alloc::{AllocError, Global};
use weld_data::{Stop, Val};
use weld_eval::thing::{Held, value_of};
use weld_eval::values::{field_of, truth_of};

/// The next state, and whether to go on from it.
#[tactic(auto, using(crate::proofs::Turns::turn_plain))]
pub fn pair_of(pair: Held, alloc: Global) -> Result<(Val, bool), Stop>
    requires { IsTurn (held_of pair) }
    ensures { TurnAnswer result (held_of pair.entry) }
{
    match next_of(value_of(&pair), alloc) {
        Ok((state, more)) => Ok((state, more)),
        Err(_) => Err(Stop::Memory),
    }
}

/// The same of a value.
#[tactic(auto, using(crate::proofs::Turns::state_there, crate::proofs::Turns::flag_there, crate::proofs::Turns::flag_truth, crate::proofs::Turns::next))]
fn next_of(pair: &Val, alloc: Global) -> Result<(Val, bool), AllocError>
    requires { IsTurn (plain (view_val pair.now)) }
    ensures { IfOk result (λ p. IsNext (view_val pair.now) (view_val p.0) p.1) }
{
    let more = truth_of(field_of(pair, 1));
    let state = field_of(pair, 0).copy(alloc)?;
    Ok((state, more))
}
