//! The pass.

ghost use Rattle.std.specs.Prelude.{IfOk};
ghost use Rattle.weld_check_types.specs.Notes.{ProgramIsNoted};
ghost use Rattle.weld_rewriting.specs.Passed.{IsPassed};
ghost use Rattle.weld_vertical.specs.Fusing.{HasNoSuchLoop};

use crate::laws::loops_may_be_fused;
use crate::rule::Loops;
use std::alloc::{AllocError, Global};
use weld_meaning::Accepted;
use weld_rewriting::pass::run_pass;

/// The program with loops over what other loops make as one loop: where a loop's only leg is the
/// `result` of a loop that starts with an empty `vecbuilder` and merges into it at one place, behind
/// lets and in arms of ifs or not, the loop runs over that one's legs, and its body stands in the
/// place of the merge, its row the value that was merged. Where the merge isn't made in every row, the
/// loop must not use its row number. No list is made in between. It asks for a program whose nodes
/// have their types noted, as the checker leaves it. It fails for want of memory alone, and the
/// program is spent then.
pub fn fuse_vertical(alloc: Global, p: Accepted) -> Result<Accepted, AllocError>
    requires { ProgramIsNoted p }
    ensures passed { IfOk result (λ q. IsPassed q p) }
    ensures no_redex_of_its_own { IfOk result (λ q. HasNoSuchLoop q.body) }
{
    loops_may_be_fused();
    run_pass(alloc, &Loops, p)
}
