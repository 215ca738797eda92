ghost use Rattle.std.specs.Prelude.{◌≡◌, OnOk};
ghost use Rattle.weld_board.specs.Sitting.{Sits, IsEmptied};

use std::alloc::{AllocError, Global};
use std::test::Fail;
use weld_board::{Board, Seat, close, deal};
use weld_tiles::Tile;

/// Five tiles of one row.
static FIVE: [Tile; 5] = [
    Tile {
        number: 0,
        lo: 0,
        hi: 1,
    },
    Tile {
        number: 1,
        lo: 1,
        hi: 2,
    },
    Tile {
        number: 2,
        lo: 2,
        hi: 3,
    },
    Tile {
        number: 3,
        lo: 3,
        hi: 4,
    },
    Tile {
        number: 4,
        lo: 4,
        hi: 5,
    },
];

/// The numbers of the tiles that a seat takes until it has found every hand empty.
fn take_all(alloc: Global, seat: &mut Seat, board: &Board) -> Result<Vec<u64>, AllocError>
    requires { Sits board.now seat.old }
    ensures sits { OnOk result (Sits board.now seat.new) }
    ensures emptied { OnOk result (IsEmptied seat.new) }
{
    let mut numbers = Vec::new(alloc);
    'takes: while let Some(tile) = seat.take(board) {
        numbers.push(tile.number)?;
    }
    Ok(numbers)
}

/// Of five tiles that two seats share, the second seat alone takes those of its own hand first, and then those of the other.
#[test]
fn a_seat_alone_takes_its_own_hand_first(rt: HostRuntime) -> Result<(), Fail> {
    let (board, mut seats) = deal(rt.alloc(), &FIVE, 2)?;
    let Some(mut second) = seats.pop() else {
        return Err(Fail::from("there is no seat"));
    };
    let Some(mut first) = seats.pop() else {
        return Err(Fail::from("there is one seat"));
    };
    let by_second = take_all(rt.alloc(), &mut second, &board)?;
    let by_first = take_all(rt.alloc(), &mut first, &board)?;
    assert!(rt; by_second.as_slice() == [2, 3, 4, 0, 1].as_slice());
    assert!(rt; by_first.is_empty());
    seats.put(first);
    seats.put(second);
    close(board, seats);
    Ok(())
}
