//! The pass.

ghost use Rattle.std.specs.Prelude.{IfOk};
ghost use Rattle.weld_check_types.specs.Notes.{ProgramIsNoted};
ghost use Rattle.weld_rewriting.specs.Passed.{IsPassed};
ghost use Rattle.weld_predicate.specs.Predicating.{HasNoGuard};

use crate::laws::guards_may_be_rewritten;
use crate::rule::Guards;
use std::alloc::{AllocError, Global};
use weld_meaning::Accepted;
use weld_rewriting::pass::run_pass;

/// The program with its guarded merges merged always: where one arm of an `if` merges a value into a
/// path of a `merger`, and the other is that path, the `if` becomes the merge of what a `select`
/// chooses, the value or the operator's neutral value. The value must be safe: nothing runs that
/// could fault and didn't run before. It asks for a program whose nodes have their types noted, as
/// the checker leaves it. It fails for want of memory alone, and the program is spent then.
pub fn predicate(alloc: Global, p: Accepted) -> Result<Accepted, AllocError>
    requires { ProgramIsNoted p }
    ensures passed { IfOk result (λ q. IsPassed q p) }
    ensures no_redex_of_its_own { IfOk result (λ q. HasNoGuard q.body) }
{
    guards_may_be_rewritten();
    run_pass(alloc, &Guards, p)
}
