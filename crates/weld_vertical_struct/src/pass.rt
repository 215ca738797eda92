//! The pass.

ghost use Rattle.std.specs.Prelude.{IfOk};
ghost use Rattle.weld_check_types.specs.Notes.{ProgramIsNoted};
ghost use Rattle.weld_rewriting.specs.Passed.{IsPassed};
ghost use Rattle.weld_vertical_struct.specs.Held.{HasNoHeldLoop};

use crate::laws::held_loops_may_be_fused;
use crate::rule::Opened;
use std::alloc::{AllocError, Global};
use weld_meaning::Accepted;
use weld_rewriting::pass::run_pass;
use weld_vertical::Loops;

/// The program with loops over what other loops make as one loop, also where the other holds its
/// builder in pairs: where a `let` down its body is of a pair and uses that by its parts, the part in
/// which the builder stands is put in its place first, if it may be, and the pair becomes the other. No list is made in between. It asks
/// for a program whose nodes have their types noted, as the checker leaves it. It fails for want of
/// memory alone, and the program is spent then.
pub fn fuse_held(alloc: Global, p: Accepted) -> Result<Accepted, AllocError>
    requires { ProgramIsNoted p }
    ensures passed { IfOk result (λ q. IsPassed q p) }
    ensures no_redex_of_its_own { IfOk result (λ q. HasNoHeldLoop q.body) }
{
    held_loops_may_be_fused();
    let rule = Opened { rule: Loops };
    run_pass(alloc, &rule, p)
}
