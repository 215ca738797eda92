//! Laws of this crate's definitions, each the contract of a function that does nothing.

ghost use Rattle.weld_board.specs.Sharing.{AlwaysOnce, AllTaken};

/// Whatever seats do with dealt tiles, each tile is in one hand or was taken by one seat, once.
pub fn once()
    ensures { AlwaysOnce }
{}

/// Where all seats have finished, what they took is all that was dealt, each tile once.
pub fn all_are_taken()
    ensures { AllTaken }
{}
