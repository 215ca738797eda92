//! The pass.

ghost use Rattle.std.specs.Prelude.{IfOk};
ghost use Rattle.weld_check_types.specs.Notes.{ProgramIsNoted};
ghost use Rattle.weld_rewriting.specs.Passed.{IsPassed};
ghost use Rattle.weld_inline.specs.Inlining.{HasNoSuchLet};

use crate::laws::lets_may_be_rewritten;
use crate::rule::Lets;
use std::alloc::{AllocError, Global};
use weld_meaning::Accepted;
use weld_rewriting::pass::run_pass;

/// The program with lets put in their place: those of a plain value, which is a name, a name
/// followed by field accesses, or a number or truth literal; and those whose name is used once,
/// where the way from the body to the use passes no lambda, no arm of an `if` and no right side of
/// `&&` or `||`. A value in which a loop stands is put in place as a leg or under `result` alone,
/// and a builder not under a field access. An unused `let` stays, since its value may fault, unless
/// that is plain. It asks for a program whose nodes have their types noted, as the checker leaves
/// it. It fails for want of memory alone, and the program is spent then.
pub fn inline_lets(alloc: Global, p: Accepted) -> Result<Accepted, AllocError>
    requires { ProgramIsNoted p }
    ensures passed { IfOk result (λ q. IsPassed q p) }
    ensures no_redex_of_its_own { IfOk result (λ q. HasNoSuchLet q.body) }
{
    lets_may_be_rewritten();
    run_pass(alloc, &Lets, p)
}
