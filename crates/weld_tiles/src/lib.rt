//! Tiles: the rows of a loop, cut into ranges that can be run apart.
#![tactic(auto)]

pub mod cut;
pub mod laws;
pub mod tile;

pub use cut::{is_tiling, tiles};
pub use tile::{Tile, TileList};

#[cfg(test)]
mod tests;
