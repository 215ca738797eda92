//! How a seat takes tiles.

ghost use Rattle.std.specs.Prelude.{◌≡◌, ◌+◌, ◌<◌, ◌≤◌, ℕ, [], ◌∷◌, length, slice_index_or, MatchOption};
ghost use Rattle.weld_board.specs.declared.share.Share.{Share};
ghost use Rattle.weld_board.specs.Draws.{first_of, size_of, late, drawn};
ghost use Rattle.weld_board.specs.Rule.{IsBounded};
ghost use Rattle.weld_board.specs.Sitting.{Sits, Takes, AreOnHands, draws_in, board_tiles, seat_number};

use crate::board::Board;
use crate::hands::start_of;
use crate::rule::{Draw, View};
use crate::seat::Seat;
use weld_tiles::Tile;

/// One draw on a hand, by one atomic step: the place that it finds, which no other draw has. It takes no memory.
fn draw(place: &mut atomic_table::Seat<u8, View>, board: &Board, hand: u32) -> u64
    requires table { place.old.table_id ≡ board.now.table.shared.table_id }
    requires hand { hand < board.now.dealt.workers }
    requires one { (s : Share) × (place.old.me ≡ (s ∷ [], [])) }
    requires not_empty { late board.now.dealt hand (draws_in place.old.me.0) ≡ 0 }
    ensures table { place.new.table_id ≡ place.old.table_id }
    ensures draw { place.new.me ≡ (drawn place.old.me.0 hand result, place.old.me.1) }
    ensures bounded { IsBounded place.new.me.0 }
{
    board
        .table
        .shared
        .fetch_add::<Draw>(place, hand as usize, 1)
}

impl Board {
    /// The tile at a place of a hand, if the hand has so many.
    fn tile_at(&self, hand: u32, place: u64) -> Option<Tile>
        requires { hand < self.now.dealt.workers }
        ensures { MatchOption result (size_of self.now.dealt hand ≤ place)
            (λ t. (place < size_of self.now.dealt hand) × (t
            ≡ slice_index_or (board_tiles self.now) (first_of self.now.dealt hand + place) t)) }
    {
        let first = start_of(self.tiles.len(), self.dealt.workers, hand);
        let end = start_of(self.tiles.len(), self.dealt.workers, hand + 1);
        if place < (end - first) as u64 {
            Some(self.tiles[first + place as usize])
        } else {
            None
        }
    }
}

impl Seat {
    /// The seat's number among those of its board, from 0.
    pub fn number(&self) -> u32
        ensures { result ≡ seat_number self.now }
    {
        self.number
    }

    /// Takes a tile of the board: of the seat's own hand, or, where it has found that empty, of the next, and so on around. None
    /// comes exactly where the seat has found every hand empty. It draws at most once on each hand that it finds empty, each
    /// draw being one atomic step, and takes no memory.
    pub fn take(&mut self, board: &Board) -> Option<Tile>
        requires { Sits board.now self.old }
        ensures sits { Sits board.now self.new }
        ensures number { seat_number self.new ≡ seat_number self.old }
        ensures tile { Takes board.now self.old result self.new }
    {
        'draws: while self.passed < self.dealt.workers {
            let hand = (self.number + self.passed) % self.dealt.workers;
            let place = draw(&mut self.place, board, hand);
            match board.tile_at(hand, place) {
                Some(tile) => return Some(tile),
                None => {}
            }
            self.passed += 1;
        }
        None
    }
}
