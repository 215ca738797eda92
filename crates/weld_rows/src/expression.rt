//! Expressions evaluated, in place where their loops allow that.

ghost use Rattle.std.specs.Prelude.{◌≡◌};
ghost use Rattle.weld_data.specs.View.{view_val};
ghost use Rattle.weld_meaning.specs.Evaluation.{eval as eval_of, turn_limit};
ghost use Rattle.weld_eval.specs.Fit.{IsFit};
ghost use Rattle.weld_eval.specs.FrameView.{env_of};
ghost use Rattle.weld_eval.specs.ThingView.{held_of};
ghost use Rattle.weld_eval_plain.specs.Nodes.{IsIterate};
ghost use Rattle.weld_eval_plain.specs.Turns.{HoldsState, turns_from};
ghost use Rattle.weld_eval.specs.Answers.{Answers};

use crate::walk::{run_turns, value};
use std::alloc::Global;
use weld_acts::is_direct;
use weld_data::{Stop, Val};
use weld_eval::frame::Frame;
use weld_eval::thing::Held;
use weld_tree::Expr;

/// What an expression comes to, where its names stand for the things of the frame. Its loops run in
/// place where each acts on its own builder, else what each row makes is appended. It faults exactly
/// where the meaning is a fault. It may want memory.
#[tactic(auto, using(crate::proofs::Direct::decided_runs))]
pub fn evaluate<'a>(e: &Expr, frame: &'a Frame<'a>, alloc: Global) -> Result<Held<'a>, Stop>
    requires { IsFit e.now (env_of frame.now) }
    ensures { Answers held_of result (eval_of e.now (env_of frame.now)) }
{
    let in_place = is_direct(e);
    value(e, frame, in_place, alloc)
}

/// What the turns of an `iterate` come to from a state, in the same way. It faults exactly where a turn
/// does, or after the millionth.
#[tactic(auto, using(crate::proofs::Direct::as_decided))]
pub fn take_turns<'a>(
    e: &Expr,
    frame: &'a Frame<'a>,
    state: Val,
    alloc: Global,
) -> Result<Held<'a>, Stop>
    requires form { IsIterate e.now }
    requires state { HoldsState e.now (env_of frame.now) (view_val state) }
    ensures { Answers held_of result (turns_from e.now (env_of frame.now) turn_limit
        (view_val state)) }
{
    let in_place = is_direct(e);
    run_turns(e, frame, in_place, state, alloc)
}
