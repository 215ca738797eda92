use weld_data::Items;

/// A range of a loop's rows, from `lo` up to, not including, `hi`, with its number among the tiles of the loop, from 0.
#[derive(Clone, Copy, Debug, PartialEq, Eq)]
pub struct Tile {
    pub number: u64,
    pub lo: u64,
    pub hi: u64,
}

/// A list of tiles.
pub type TileList = Items<Tile>;
