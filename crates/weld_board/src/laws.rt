//! Laws of the steps at a board, each the contract of a function that does nothing.

ghost use Rattle.weld_board.specs.Events.{DrawsAreEvents, BoardsAreCores};

/// Where the board's rule holds, a draw on a hand by a seat at work is one event of the core: the seat
/// takes the first tile left in that hand, if there is one, and nothing else changes.
pub fn draws_are_events()
    ensures { DrawsAreEvents }
{}

/// Whatever seats do at a board, in any order, what is left in the hands and what each seat took are what
/// the core comes to by the draws among it, one event each, from the tiles dealt.
pub fn boards_are_cores()
    ensures { BoardsAreCores }
{}
