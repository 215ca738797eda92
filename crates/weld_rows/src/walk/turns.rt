//! The turns of an `iterate`.

ghost use Rattle.std.specs.Prelude.{◌≡◌, true};
ghost use Rattle.weld_acts.specs.Act.{AreDirect};
ghost use Rattle.weld_builders.specs.Outcome.{done};
ghost use Rattle.weld_data.specs.View.{view_val};
ghost use Rattle.weld_eval.specs.FrameView.{env_of};
ghost use Rattle.weld_eval.specs.Takes.{IsPlain};
ghost use Rattle.weld_eval.specs.ThingView.{held_of};
ghost use Rattle.weld_eval_plain.specs.Nodes.{IsIterate};
ghost use Rattle.weld_eval_plain.specs.Turns.{HoldsState, TurnAnswers, turns_from};
ghost use Rattle.weld_eval.specs.Answers.{Answers};
ghost use Rattle.weld_meaning.specs.Evaluation.{eval as eval_of, turn_limit};
ghost use Rattle.weld_meaning.specs.Thing.{Thing};
ghost use Rattle.weld_rows.specs.Nodes.{value_thing, IsIterateOf};
ghost use Rattle.weld_rows.specs.Runs.{Runs};

use super::values::value;
use std::alloc::Global;
use weld_data::{Stop, Val};
use weld_eval::frame::{Frame, bind};
use weld_eval::thing::{Held, Owned, into_value};
use weld_eval_forms::turn::pair_of;
use weld_tree::{Expr, Form};
use weld_turns::turns_in_slots;

/// How many turns an `iterate` may take.
const TURN_LIMIT: u32 = 1_000_000;

/// An `iterate`: its turns, from the state that it starts with.
#[cycle(rows)]
#[tactic(auto, using(crate::proofs::Nodes::state_runs, crate::proofs::Nodes::state_is_plain, crate::proofs::Nodes::of_is_iterate))]
pub(super) fn value_of_iterate<'a>(
    e: &Expr,
    start: &Expr,
    frame: &'a Frame<'a>,
    in_place: bool,
    alloc: Global,
) -> Result<Held<'a>, Stop>
    requires runs { Runs in_place e.now (env_of frame.now) }
    requires form { IsIterateOf e.now start.now }
    ensures { Answers held_of result (eval_of e.now (env_of frame.now)) }
{
    match first_state(start, &*frame, in_place, alloc) {
        Ok(state) => run_turns(e, frame, in_place, state, alloc),
        Err(stop) => Err(stop),
    }
}

/// The state that an `iterate` starts with.
#[cycle(rows)]
fn first_state(e: &Expr, frame: &Frame, in_place: bool, alloc: Global) -> Result<Val, Stop>
    requires runs { Runs in_place e.now (env_of frame.now) }
    requires plain { (x : Thing) → eval_of e.now (env_of frame.now) ≡ done x → IsPlain x }
    ensures { Answers value_thing result (eval_of e.now (env_of frame.now)) }
{
    match value(e, &*frame, in_place, alloc) {
        Ok(x) => match into_value(x, alloc) {
            Ok(state) => Ok(state),
            Err(_) => Err(Stop::Memory),
        },
        Err(stop) => Err(stop),
    }
}

/// The turns of an `iterate` from a state, until one says that it is the last; the millionth may be the
/// last, and one more is a fault. They run in slots where the state and the body are numbers.
#[cycle(rows)]
pub fn run_turns<'a>(
    e: &Expr,
    frame: &'a Frame<'a>,
    in_place: bool,
    start: Val,
    alloc: Global,
) -> Result<Held<'a>, Stop>
    requires state { HoldsState e.now (env_of frame.now) (view_val start) }
    requires direct { in_place ≡ true → AreDirect e.now }
    requires form { IsIterate e.now }
    ensures { Answers held_of result (turns_from e.now (env_of frame.now) turn_limit
        (view_val start)) }
{
    match turns_in_slots(e, &*frame, &start, alloc) {
        Some(result) => return result,
        None => {}
    }
    let mut state = start;
    for _turn in 0..TURN_LIMIT {
        match run_turn(e, &*frame, in_place, state, alloc) {
            Ok((next, true)) => state = next,
            Ok((last, false)) => return Ok(Held::Made(Owned::Value(last))),
            Err(stop) => return Err(stop),
        }
    }
    Err(Stop::Fault)
}

/// One turn: the next state, and whether to go on.
#[cycle(rows)]
fn run_turn(
    e: &Expr,
    frame: &Frame,
    in_place: bool,
    state: Val,
    alloc: Global,
) -> Result<(Val, bool), Stop>
    requires state { HoldsState e.now (env_of frame.now) (view_val state) }
    requires direct { in_place ≡ true → AreDirect e.now }
    requires form { IsIterate e.now }
    ensures { TurnAnswers result e.now (env_of frame.now) (view_val state) }
{
    match &e.form {
        Form::Iterate(_, binder, body) => {
            let state = Held::Made(Owned::Value(state));
            let inner = bind(binder.sym, &state, &*frame);
            match value(body, &inner, in_place, alloc) {
                Ok(pair) => pair_of(pair, alloc),
                Err(stop) => Err(stop),
            }
        }
        _ => unreachable!(),
    }
}
