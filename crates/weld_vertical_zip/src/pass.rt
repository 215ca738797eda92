//! The pass.

ghost use Rattle.std.specs.Prelude.{IfOk};
ghost use Rattle.weld_check_types.specs.Notes.{ProgramIsNoted};
ghost use Rattle.weld_rewriting.specs.Passed.{IsPassed};
ghost use Rattle.weld_vertical_zip.specs.Zips.{HasNoMadeLeg};

use crate::laws::made_legs_may_be_spliced;
use crate::rule::Zips;
use std::alloc::{AllocError, Global};
use weld_meaning::Accepted;
use weld_rewriting::pass::run_pass;

/// The program with lists that other loops make made where they are used, on legs of a `zip`: where a leg is the
/// `result` of a loop that starts with an empty `vecbuilder` and merges into it once a row, behind lets or not, the
/// loop runs over that one's legs in its place, and its body stands in the place of the merge, its row the struct of
/// the value that was merged and the items beside it. No list is made in between. It asks for a program whose nodes
/// have their types noted, as the checker leaves it. It fails for want of memory alone, and the program is spent then.
pub fn fuse_zipped(alloc: Global, p: Accepted) -> Result<Accepted, AllocError>
    requires { ProgramIsNoted p }
    ensures passed { IfOk result (λ q. IsPassed q p) }
    ensures no_redex_of_its_own { IfOk result (λ q. HasNoMadeLeg q.body) }
{
    made_legs_may_be_spliced();
    run_pass(alloc, &Zips, p)
}
