//! Runs of plans: the steps between shared loops, and the tiles of a loop's rows.
#![tactic(auto)]

mod apply;
pub mod env;
mod evaluate;
mod gather;
mod range;
mod room;
mod stack;
mod steps;
pub mod tile;

pub use env::{Env, Next};
pub use tile::{bare_part, part_of, run_in, run_tile, tile_part};
