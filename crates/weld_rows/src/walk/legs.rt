//! The vectors that a loop goes over.

ghost use Rattle.std.specs.Prelude.{IfOk};
ghost use Rattle.weld_eval.specs.Answers.{Answers};
ghost use Rattle.weld_eval.specs.FrameView.{env_of};
ghost use Rattle.weld_eval.specs.ThingView.{held_of};
ghost use Rattle.weld_eval_forms.specs.Legs.{elements_in, leg_lists, IsVector, AreVectors};
ghost use Rattle.weld_meaning.specs.Evaluation.{eval_leg as eval_leg_of, eval_legs as eval_legs_of};
ghost use Rattle.weld_rows.specs.Runs.{LegRuns, LegsRun};
ghost use Rattle.weld_tree.specs.ExprTree as tree;
ghost use Rattle.weld_tree.specs.ExprTree.{pack_legs};
ghost use Rattle.weld_tree.specs.ExprView.{view_leg};

use super::values::value;
use crate::forms::discard;
use std::alloc::Global;
use weld_data::Stop;
use weld_eval::frame::Frame;
use weld_eval::thing::Held;
use weld_eval_forms::legs::{strided, whole};
use weld_tree::{Expr, Leg, Legs};

/// The vectors of the legs.
#[cycle(rows)]
#[tactic(auto, using(crate::proofs::LegLemmas::leg_runs, crate::proofs::LegLemmas::legs_rest_run, weld_eval_plain::proofs::Parts::leg_done, weld_eval_plain::proofs::Parts::leg_faults, weld_eval_plain::proofs::Parts::no_leg_left, weld_eval_plain::proofs::Parts::one_vector_more))]
pub(super) fn eval_legs<'a>(
    legs: &Legs,
    frame: &'a Frame<'a>,
    in_place: bool,
    alloc: Global,
) -> Result<Vec<Held<'a>>, Stop>
    requires { LegsRun in_place (pack_legs legs.now) (env_of frame.now) }
    ensures lists { Answers (λ vectors. leg_lists vectors.items) result
        (eval_legs_of (pack_legs legs.now) (env_of frame.now)) }
    ensures vectors { IfOk result (λ vectors. AreVectors vectors.items) }
{
    let mut vectors = Vec::new(alloc);
    for leg in legs.as_slice() {
        match eval_leg(leg, frame, in_place, alloc) {
            Ok(vector) => match vectors.push(vector) {
                Ok(_) => {}
                Err(_) => return Err(Stop::Memory),
            },
            Err(stop) => return Err(stop),
        }
    }
    Ok(vectors)
}

/// The vector of one leg.
#[cycle(rows)]
#[tactic(auto, using(crate::proofs::LegLemmas::whole_runs, crate::proofs::LegLemmas::strided_runs, weld_eval_plain::proofs::Legs::whole_is_vector))]
fn eval_leg<'a>(
    leg: &Leg,
    frame: &'a Frame<'a>,
    in_place: bool,
    alloc: Global,
) -> Result<Held<'a>, Stop>
    requires { LegRuns in_place (view_leg leg.now) (env_of frame.now) }
    ensures elements { Answers elements_in result (eval_leg_of (view_leg leg.now)
        (env_of frame.now)) }
    ensures vector { IfOk result (λ x. IsVector (held_of x)) }
{
    match leg {
        Leg::Whole(e) => match value(e, frame, in_place, alloc) {
            Ok(v) => Ok(whole(v)),
            Err(stop) => Err(stop),
        },
        Leg::Strided(e, start, end, stride) => {
            eval_strided(e, start, end, stride, frame, in_place, alloc)
        }
    }
}

/// The vector of a leg with bounds and a stride.
#[cycle(rows)]
#[tactic(auto, using(crate::proofs::LegLemmas::vector_runs, crate::proofs::LegLemmas::start_runs, crate::proofs::LegLemmas::end_runs, crate::proofs::LegLemmas::stride_runs))]
fn eval_strided<'a>(
    e: &Expr,
    start: &Expr,
    end: &Expr,
    stride: &Expr,
    frame: &'a Frame<'a>,
    in_place: bool,
    alloc: Global,
) -> Result<Held<'a>, Stop>
    requires { LegRuns in_place (tree.strided e.now start.now end.now stride.now)
        (env_of frame.now) }
    ensures elements { Answers elements_in result (eval_leg_of (tree.strided e.now start.now end.now
        stride.now) (env_of frame.now)) }
    ensures vector { IfOk result (λ x. IsVector (held_of x)) }
{
    let v = match value(e, frame, in_place, alloc) {
        Ok(v) => v,
        Err(stop) => return Err(stop),
    };
    let first = match value(start, frame, in_place, alloc) {
        Ok(x) => x,
        Err(stop) => {
            discard(v);
            return Err(stop);
        }
    };
    let last = match value(end, frame, in_place, alloc) {
        Ok(x) => x,
        Err(stop) => {
            discard(v);
            discard(first);
            return Err(stop);
        }
    };
    match value(stride, frame, in_place, alloc) {
        Ok(step) => strided(v, first, last, step, alloc),
        Err(stop) => {
            discard(v);
            discard(first);
            discard(last);
            Err(stop)
        }
    }
}
