//! Lists of seats.

ghost use Rattle.std.specs.Prelude.{◌≡◌, ◌<◌, ◌++◌, ◌∷◌, [], length, option_to_list, IsSome, ◌↔◌};
ghost use Rattle.weld_board.specs.Sitting.{seats_in, seats_room};

use crate::seat::Seat;

/// Seats of one board, with room for all of them.
#[derive(Drop)]
pub struct Seats {
    pub(crate) list: Vec<Seat>,
}

impl Seats {
    /// Takes the last seat out; None exactly where there is none. It takes no memory.
    pub fn pop(&mut self) -> Option<Seat>
        ensures seats { seats_in self.old ≡ seats_in self.new ++ option_to_list result }
        ensures none { IsSome result ↔ (0 < length (seats_in self.old)) }
        ensures room { seats_room self.new ≡ seats_room self.old }
    {
        self.list.pop()
    }

    /// Appends a seat that was popped. It takes no memory.
    pub fn put(&mut self, seat: Seat)
        requires { length (seats_in self.old) < seats_room self.old }
        ensures seats { seats_in self.new ≡ seats_in self.old ++ seat ∷ [] }
        ensures room { seats_room self.new ≡ seats_room self.old }
    {
        self.list.push_reserved(seat);
    }
}
