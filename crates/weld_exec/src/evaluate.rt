//! The steps that evaluate an expression, where the names stand for what lets have bound and for the arguments.

ghost use Rattle.std.specs.Prelude.{◌≡◌, ◌++◌};
ghost use Rattle.weld_meaning.specs.Evaluation.{eval as eval_of, turn_limit};
ghost use Rattle.weld_meaning.specs.Meaning.{with_arguments};
ghost use Rattle.weld_data.specs.View.{view_val};
ghost use Rattle.weld_eval.specs.Fit.{IsFit};
ghost use Rattle.weld_eval.specs.FrameView.{env_of};
ghost use Rattle.weld_eval.specs.NamesView.{env_of_names};
ghost use Rattle.weld_builders.specs.Outcome.{done};
ghost use Rattle.weld_eval.specs.ThingView.{thing_of, held_of};
ghost use Rattle.weld_eval_plain.specs.Nodes.{IsIterate};
ghost use Rattle.weld_eval_plain.specs.Turns.{HoldsState, turns_from};
ghost use Rattle.weld_eval.specs.Answers.{Answers};

use std::alloc::Global;
use weld_data::{Stop, Val, Vals};
use weld_eval::frame::Frame;
use weld_eval::names::Names;
use weld_eval::thing::{Held, Owned, into_owned};
use weld_rows::evaluate;
use weld_tree::{Expr, Program};

/// What an expression comes to.
pub(crate) fn compute(
    e: &Expr,
    program: &Program,
    inputs: &Vals,
    names: &Names,
    alloc: Global,
) -> Result<Owned, Stop>
    requires { IsFit e.now (env_of_names names.now ++ with_arguments program.now.params
        inputs.now) }
    ensures { Answers thing_of result (eval_of e.now (env_of_names names.now
        ++ with_arguments program.now.params inputs.now)) }
{
    let base = parameters(program, inputs);
    let frame = within(names, &base);
    match evaluate(e, &frame, alloc) {
        Ok(x) => owned(x, alloc),
        Err(stop) => Err(stop),
    }
}

/// What the turns of an `iterate` come to from a state.
pub(crate) fn take_turns(
    e: &Expr,
    state: Val,
    program: &Program,
    inputs: &Vals,
    names: &Names,
    alloc: Global,
) -> Result<Owned, Stop>
    requires form { IsIterate e.now }
    requires state { HoldsState e.now (env_of_names names.now
        ++ with_arguments program.now.params inputs.now) (view_val state) }
    ensures { Answers thing_of result (turns_from e.now (env_of_names names.now
        ++ with_arguments program.now.params inputs.now) turn_limit (view_val state)) }
{
    let base = parameters(program, inputs);
    let frame = within(names, &base);
    match weld_rows::take_turns(e, &frame, state, alloc) {
        Ok(x) => owned(x, alloc),
        Err(stop) => Err(stop),
    }
}

/// The names of the parameters, which stand for the arguments. It takes no memory.
pub(crate) fn parameters<'a>(program: &'a Program, inputs: &'a Vals) -> Frame<'a>
    ensures { env_of result ≡ with_arguments program.now.params inputs.now }
{
    Frame::Arguments(&program.params, inputs)
}

/// These names before others. It takes no memory.
pub(crate) fn within<'a>(names: &'a Names, rest: &'a Frame<'a>) -> Frame<'a>
    ensures { env_of result ≡ env_of_names names.now ++ env_of rest.now }
{
    Frame::Names(names, rest)
}

/// A thing as one that was made.
fn owned(held: Held, alloc: Global) -> Result<Owned, Stop>
    ensures { Answers thing_of result (done (held_of held.entry)) }
{
    match into_owned(held, alloc) {
        Ok(x) => Ok(x),
        Err(_) => Err(Stop::Memory),
    }
}
