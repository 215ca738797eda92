//! The end of a board.

ghost use Rattle.std.specs.Prelude.{◌≡◌, ◌<◌, ℕ, [], ◌∷◌, ◌++◌, All, length, map, IsPermutation};
ghost use Rattle.weld_board.specs.Dealing.{joined};
ghost use Rattle.weld_board.specs.declared.seat.Seat.{Seat};
ghost use Rattle.weld_board.specs.Rule.{IsAll};
ghost use Rattle.weld_board.specs.Sitting.{Sits, IsEmptied, board_dealt, seats_in, shares_of, taken, lists_taken, numbers};

use crate::board::Board;
use crate::dealt::Dealt;
use crate::rule::{Look, Together, View};
use crate::seat::Seat;
use crate::seats::Seats;

/// What the seats of a board took. Contracts see the list of each seat, by the numbers of the tiles among those dealt.
#[derive(Drop)]
pub struct Taken {
    pub(crate) place: atomic_table::Seat<u8, View>,
    pub(crate) dealt: Dealt,
}

/// Closes a board whose seats have all come back, each having found every hand empty. What they took is what was dealt, each
/// tile once. It takes no memory.
pub fn close(board: Board, seats: Seats) -> Taken
    requires all { length (seats_in seats) ≡ (board_dealt board).workers }
    requires sit { All (Sits board) (seats_in seats) }
    requires emptied { All IsEmptied (seats_in seats) }
    ensures lists { lists_taken result ≡ map taken (seats_in seats) }
    ensures once { IsPermutation (joined (lists_taken result)) (numbers (board_dealt board).tiles) }
{
    let Seats { list } = seats;
    let mut place = join_all(&board, list);
    look(&board, &mut place);
    Taken {
        place,
        dealt: board.dealt,
    }
}

/// One seat that has the shares of all, in their order.
fn join_all(board: &Board, mut seats: Vec<Seat>) -> atomic_table::Seat<u8, View>
    requires some { 0 < length seats.items }
    requires sit { All (Sits board.now) seats.items }
    ensures table { result.table_id ≡ board.now.table.shared.table_id }
    ensures shares { result.me ≡ (shares_of seats.items, []) }
{
    let Some(last) = seats.pop() else {
        unreachable!()
    };
    let mut place = last.place;
    'joins: while let Some(seat) = seats.pop() {
        board
            .table
            .shared
            .join_seat::<Together>(&mut place, seat.place);
    }
    place
}

/// A load by the seat that has all shares.
fn look(board: &Board, place: &mut atomic_table::Seat<u8, View>)
    requires table { place.old.table_id ≡ board.now.table.shared.table_id }
    requires none { place.old.me.1 ≡ [] }
    requires all { length place.old.me.0 ≡ board.now.dealt.workers }
    ensures same { place.new.me ≡ place.old.me }
    ensures all { IsAll place.old.me.0 }
{
    let _found = board.table.shared.load::<Look>(place, 0);
}
