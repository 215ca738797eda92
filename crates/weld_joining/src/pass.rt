//! The pass.

ghost use Rattle.std.specs.Prelude.{IfOk};
ghost use Rattle.weld_check_types.specs.Notes.{ProgramIsNoted};
ghost use Rattle.weld_rewriting.specs.Passed.{IsPassed};
ghost use Rattle.weld_joining.specs.Joining.{HasNoPair};

use crate::laws::loops_may_be_joined;
use crate::rule::Beside;
use std::alloc::{AllocError, Global};
use weld_meaning::Accepted;
use weld_rewriting::pass::run_pass;

/// The program with loops side by side as one loop: where two lets each bind a loop over one name
/// or its `result`, between them stand none but lets of results of names with field accesses, and
/// the second value uses nothing that these or the first bind, one loop runs over the name from the
/// struct of what both start from, and the lets bind its fields or their results. The vector is
/// gone over once, however many such lets stand there. It asks for a program whose nodes have their
/// types noted, as the checker leaves it. It fails for want of memory alone, and the program is
/// spent then.
pub fn join_loops(alloc: Global, p: Accepted) -> Result<Accepted, AllocError>
    requires { ProgramIsNoted p }
    ensures passed { IfOk result (λ q. IsPassed q p) }
    ensures no_redex_of_its_own { IfOk result (λ q. HasNoPair q.body) }
{
    loops_may_be_joined();
    run_pass(alloc, &Beside, p)
}
