//! Tiles dealt to workers at a new board.

ghost use Rattle.std.specs.Prelude.{◌≡◌, ◌+◌, ◌^◌, ◌<◌, ◌≤◌, [], ◌∷◌, length, replicate, vec_capacity, IfOk};
ghost use Rattle.weld_board.specs.declared.dealt.Dealt.{Dealt};
ghost use Rattle.weld_board.specs.Draws.{fresh};
ghost use Rattle.weld_board.specs.Sitting.{AreFresh, board_dealt, board_tiles, seats_in, seats_room};

use crate::board::Board;
use crate::dealt::Dealt;
use crate::rule::{FirstShare, Sharing, View};
use crate::seat::Seat;
use crate::seats::Seats;
use atomic_table::Table;
use std::alloc::{AllocError, Global};
use weld_tiles::Tile;

/// Deals tiles to workers: a board with a hand for each of them, and their seats, in the order of their numbers. Hand k has the
/// tiles numbered from k n / w up to, not including, (k + 1) n / w, of n tiles and w workers.
pub fn deal(alloc: Global, list: &[Tile], workers: u32) -> Result<(Board, Seats), AllocError>
    requires some_worker { 1 ≤ workers }
    requires workers { workers ≤ 64 }
    ensures tiles { IfOk result (λ r. board_tiles r.0 ≡ list.now) }
    ensures dealt { IfOk result (λ r. board_dealt r.0 ≡ record
        { tiles = length list.now; workers = workers }) }
    ensures seats { IfOk result (λ r. AreFresh r.0 0 (seats_in r.1)) }
    ensures all { IfOk result (λ r. length (seats_in r.1) ≡ workers) }
    ensures room { IfOk result (λ r. seats_room r.1 ≡ workers) }
{
    let dealt = Dealt {
        tiles: list.len() as u64,
        workers,
    };
    let tiles = Vec::from_slice(alloc, list)?;
    let empty = Vec::with_capacity(alloc, workers as usize)?;
    let (table, first) = opened(alloc, dealt)?;
    let board = Board {
        table,
        tiles,
        dealt,
    };
    let seats = seat_all(&board, first, empty);
    Ok((board, Seats { list: seats }))
}

/// A table with a word for each hand, and the seat that has all shares.
fn opened(
    alloc: Global,
    dealt: Dealt,
) -> Result<
    (
        Table<u8, View, Dealt, Sharing, Global>,
        atomic_table::Seat<u8, View>,
    ),
    AllocError,
>
    requires room { dealt.tiles + dealt.workers < 18446744073709551615 }
    ensures key { IfOk result (λ r. r.0.shared.key ≡ dealt) }
    ensures words { IfOk result (λ r. r.0.shared.table_id.words ≡ dealt.workers) }
    ensures table { IfOk result (λ r. r.1.table_id ≡ r.0.shared.table_id) }
    ensures seat { IfOk result (λ r. r.1.me ≡ (fresh 0 dealt.workers, [])) }
{
    let words = zeros(alloc, dealt.workers as usize)?;
    Table::of_words(alloc, words.as_slice(), &dealt)
}

/// So many words at 0.
fn zeros(alloc: Global, count: usize) -> Result<Vec<u64>, AllocError>
    ensures { IfOk result (λ v. v.items ≡ replicate count 0) }
{
    let mut words = Vec::with_capacity(alloc, count)?;
    for _k in 0..count {
        words.push(0)?;
    }
    Ok(words)
}

/// The seats of a board, each with its share, from the seat that has all of them. It takes no memory.
fn seat_all(
    board: &Board,
    mut first: atomic_table::Seat<u8, View>,
    mut seats: Vec<Seat>,
) -> Vec<Seat>
    requires table { first.table_id ≡ board.now.table.shared.table_id }
    requires shares { first.me ≡ (fresh 0 board.now.dealt.workers, []) }
    requires none { seats.items ≡ [] }
    requires room { vec_capacity seats ≡ board.now.dealt.workers }
    ensures seats { AreFresh board.now 0 result.items }
    ensures all { length result.items ≡ board.now.dealt.workers }
    ensures room { vec_capacity result ≡ vec_capacity seats }
{
    for number in 0..board.dealt.workers {
        let place = board.table.shared.split_seat::<FirstShare>(&mut first);
        seats.push_reserved(Seat {
            place,
            dealt: board.dealt,
            number,
            passed: 0,
        });
    }
    seats
}
