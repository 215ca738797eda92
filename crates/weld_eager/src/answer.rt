//! Answers of values, or why there is none.

ghost use Rattle.std.specs.Prelude.{◌≡◌, IfOk};
ghost use Rattle.weld_data.specs.Value.{Value};
ghost use Rattle.weld_data.specs.View.{view_val};
ghost use Rattle.weld_builders.specs.Outcome.{Outcome, done};
ghost use Rattle.weld_eval.specs.Answers.{Answers};
ghost use Rattle.weld_eager.specs.Reading.{IsFaultOr};

use std::alloc::AllocError;
use weld_data::{Stop, Val};

/// A value that is always there, unless memory is wanting.
pub fn always(answer: Result<Val, AllocError>) -> Result<Val, Stop>
    ensures outcome { (o : Outcome Value) → IfOk answer (λ v. o ≡ done (view_val v))
        → Answers view_val result o }
    ensures value { (w : Value) → IfOk answer (λ v. view_val v ≡ w)
        → Answers view_val result (done w) }
{
    match answer {
        Ok(v) => Ok(v),
        Err(_) => Err(Stop::Memory),
    }
}

/// A value, or a fault where there is none, unless memory is wanting.
pub fn or_fault(answer: Result<Option<Val>, AllocError>) -> Result<Val, Stop>
    ensures { (o : Outcome Value) → IfOk answer (λ r. IsFaultOr r view_val o)
        → Answers view_val result o }
{
    match answer {
        Ok(Some(v)) => Ok(v),
        Ok(None) => Err(Stop::Fault),
        Err(_) => Err(Stop::Memory),
    }
}
