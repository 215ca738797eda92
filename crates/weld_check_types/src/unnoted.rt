//! Laws of this crate's definitions, each the contract of a function that does nothing.

ghost use Rattle.std.specs.Prelude.{◌≡◌};
ghost use Rattle.weld_tree.specs.Program.{ProgramTree};
ghost use Rattle.weld_tree.specs.Blank.{AreSame};
ghost use Rattle.weld_meaning.specs.LinearWalk.{linear_refusal};
ghost use Rattle.weld_check_types.specs.Unnoted.{IsSameButNotes};

/// Noted types play no part in the walk over builders, and programs that differ in them alone are the same.
pub fn notes_play_no_part()
    ensures linear { (p q : ProgramTree) → IsSameButNotes p q
        → linear_refusal p ≡ linear_refusal q }
    ensures same { (p q : ProgramTree) → IsSameButNotes p q → AreSame p q }
{}
