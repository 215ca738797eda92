//! What seats do, and what comes of it.

use weld_tiles::Tile;

/// What a seat does: it takes the first tile of its own hand; the first seat takes that of the second's hand; it has
/// finished, its hand being empty. Seats are numbered from 0.
#[derive(Clone, Copy, Debug, PartialEq, Eq)]
pub enum Event {
    Pop(u32),
    Steal(u32, u32),
    Finish(u32),
}

/// What a step answers: the tile that was taken, that the hand is empty, that the seat has finished, or that memory is
/// wanting.
#[derive(Clone, Copy, Debug, PartialEq, Eq)]
pub enum Step {
    Took(Tile),
    Empty,
    Finished,
    Memory,
}
