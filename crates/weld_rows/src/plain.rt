//! Accepted programs evaluated one element after another.

ghost use Rattle.std.specs.Prelude.{◌≡◌};
ghost use Rattle.weld_data.specs.View.{view_val};
ghost use Rattle.weld_meaning.specs.Accepted.{IsAccepted};
ghost use Rattle.weld_meaning.specs.Meaning.{ArgumentsFit, meaning, with_arguments};
ghost use Rattle.weld_eval.specs.Answers.{Answers};
ghost use Rattle.weld_eval.specs.FrameView.{env_of};

use crate::walk::value;
use std::alloc::Global;
use weld_data::{Stop, Val, Vals};
use weld_eval::frame::Frame;
use weld_eval::thing::into_value;
use weld_tree::{Binders, Program};

/// The value of an accepted program on arguments of its parameters' types, evaluated one element after
/// another: exactly the value that the program means. It faults exactly where the meaning is a fault:
/// at a zero divisor, a place or a key that isn't there, a slice or a stride beyond its vector, legs
/// that aren't of one length, and the turn after the millionth. It may want memory.
#[tactic(auto, using(weld_eval_plain::proofs::Programs::program_fits, weld_eval_plain::proofs::Programs::program_gives, weld_eval_plain::proofs::Programs::program_means, weld_eval_plain::proofs::Programs::program_faults))]
pub fn eval_plain(alloc: Global, program: &Program, arguments: &Vals) -> Result<Val, Stop>
    requires accepted { IsAccepted program.now }
    requires fit { ArgumentsFit program.now.params arguments.now }
    ensures { Answers view_val result (meaning program.now arguments.now) }
{
    let frame = parameters(&program.params, arguments);
    match value(&program.body, &frame, false, alloc) {
        Ok(x) => match into_value(x, alloc) {
            Ok(v) => Ok(v),
            Err(_) => Err(Stop::Memory),
        },
        Err(stop) => Err(stop),
    }
}

/// The names of the parameters, which stand for the arguments. It takes no memory.
fn parameters<'a>(params: &'a Binders, arguments: &'a Vals) -> Frame<'a>
    ensures { env_of result ≡ with_arguments params.now arguments.now }
{
    Frame::Arguments(params, arguments)
}
