//! The pass.

ghost use Rattle.std.specs.Prelude.{IfOk};
ghost use Rattle.weld_check_types.specs.Notes.{ProgramIsNoted};
ghost use Rattle.weld_rewriting.specs.Passed.{IsPassed};
ghost use Rattle.weld_horizontal.specs.Doubles.{HasNoDouble};

use crate::doubles::Doubles;
use crate::laws::legs_may_stand_once;
use std::alloc::{AllocError, Global};
use weld_meaning::Accepted;
use weld_rewriting::pass::run_pass;

/// The program with each leg once: where a leg of a loop is a name that stands again, whole, in the
/// same loop, the second goes; in the body a field of the row is the field of the legs that are
/// left, and the row where it stands alone is the struct rebuilt, and where one leg is left the
/// loop runs over it alone. It asks for a program whose nodes have their types noted, as the
/// checker leaves it. It fails for want of memory alone, and the program is spent then.
pub fn join_legs(alloc: Global, p: Accepted) -> Result<Accepted, AllocError>
    requires { ProgramIsNoted p }
    ensures passed { IfOk result (λ q. IsPassed q p) }
    ensures no_redex_of_its_own { IfOk result (λ q. HasNoDouble q.body) }
{
    legs_may_stand_once();
    run_pass(alloc, &Doubles, p)
}
