//! Laws of this crate's definitions, each the contract of a function that does nothing.
ghost use Rattle.std.specs.Prelude.{◌≡◌, ◌<◌, Ok, length};
ghost use Rattle.weld_read_script.specs.declared.statements.statement.Statement.{Statement};
ghost use Rattle.weld_read_script.specs.Sound.{IsStatement};
ghost use Rattle.weld_script.specs.Script.{IsScript};
ghost use Rattle.weld_read_script.specs.declared.steps.known.Known.{Known};
ghost use Rattle.weld_read_script.specs.Steps.{after};
ghost use Rattle.weld_read_script.specs.Keeping.{IsKnown};

use crate::requests::laws::requests_are_sound;
use weld_calls::laws::rows_are_short;
use weld_script::laws::scripts_grow;

/// Whatever is known stays true of what is known behind a statement more.
pub fn statements_keep()
    ensures { (k next : Known) (st : Statement) → IsKnown k → IsStatement st → after k st ≡ Ok next
        → IsKnown next }
{
    scripts_grow();
    rows_are_short();
    requests_are_sound();
}
