//! A typed program is accepted where its builders are used linearly.

ghost use Rattle.std.specs.Prelude.{◌≡◌, IfOk, IfErr, None};
ghost use Rattle.weld_meaning.specs.LinearWalk.{linear_refusal};
ghost use Rattle.weld_uses.specs.Walks.{Fails};

use std::alloc::Global;
use weld_check_types::{Typed, check_types};
use weld_meaning::Accepted;
use weld_tree::{Program, Refusal};
use weld_uses::accept;

/// The typed program, accepted; or its first refusal, L1 to L6, or want of memory.
pub fn accept_typed(alloc: Global, typed: Typed) -> Result<Accepted, Refusal>
    ensures same { IfOk result (λ accepted. accepted ≡ typed.program) }
    ensures linear { IfOk result (λ accepted. linear_refusal accepted ≡ None) }
    ensures first_refusal { IfErr result (λ refusal. Fails refusal (linear_refusal typed.program)) }
{
    let Typed { program, ty: _ } = typed;
    accept(alloc, program)
}

/// The program, accepted; or its first refusal by its types or by its use of builders, or want of memory.
pub fn accept_program(alloc: Global, program: Program) -> Result<Accepted, Refusal> {
    match check_types(alloc, program) {
        Ok(typed) => accept_typed(alloc, typed),
        Err(refusal) => Err(refusal),
    }
}
