//! The machine's parts.

ghost use Rattle.std.specs.Prelude.{◌≡◌, length};

use weld_tiles::Tile;

/// Hands of tiles and what seats have taken of them. A hand is kept back to front, so that its first tile is at the end.
#[derive(Drop)]
pub struct Machine {
    pub(crate) hands: Vec<Vec<Tile>>,
    pub(crate) taken: Vec<Vec<Tile>>,
    pub(crate) finished: Vec<bool>,
    ghost each_takes: { length taken.items ≡ length hands.items },
    ghost each_finishes: { length finished.items ≡ length hands.items },
}
