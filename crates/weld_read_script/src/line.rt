//! Lines.
ghost use Rattle.std.specs.Prelude.{◌≡◌, ◌≤◌, length, OnOk};
ghost use Rattle.weld_read_script.specs.Keeping.{IsKnown};
ghost use Rattle.weld_read_script.specs.Steps.{Steps};
ghost use Rattle.weld_read_script.specs.Reading.{LineSteps, after_saying};

use crate::statements::laws::statements_are_sound;
use crate::statements::{Saying, read_line};
use crate::steps::laws::statements_keep;
use crate::steps::{Known, LineFault};
use std::alloc::Global;
use weld_tree::Code;

/// Takes what a line says.
fn take_saying(alloc: Global, known: &mut Known, said: Saying) -> Result<(), LineFault>
    requires { IsKnown known.old }
    ensures { Steps (after_saying known.old said) result known.new }
{
    match said {
        Saying::Nothing => Ok(()),
        Saying::NoForm => Err(LineFault::Refused(Code::S1)),
        Saying::States(statement) => known.take(alloc, statement),
    }
}

/// Takes a line of at most 262,144 bytes, without its LF.
pub(crate) fn take_line(alloc: Global, known: &mut Known, line: &[u8]) -> Result<(), LineFault>
    requires short { length line.now ≤ 262144 }
    requires known { IsKnown known.old }
    ensures steps { LineSteps known.old line.now result known.new }
    ensures keeps { OnOk result (IsKnown known.new) }
{
    statements_are_sound();
    statements_keep();
    match read_line(alloc, line) {
        Ok(said) => take_saying(alloc, known, said),
        Err(_) => Err(LineFault::Memory),
    }
}
