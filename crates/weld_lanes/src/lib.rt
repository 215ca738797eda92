//! Lanes: plain arithmetic on the numbers of one or two columns of one kind, worked out for many rows at once.
#![tactic(auto)]

mod block;
mod constants;
pub mod formed;
pub mod kernels;
pub mod kinds;
pub mod room;
pub mod steps;
mod works;

pub use constants::constants_for;
pub use formed::{are_steps, is_arithmetic, is_comparison};
pub use kernels::{answer_block, fold_lanes, map_lanes};
pub use kinds::Lane;
pub use room::{BLOCK, Scratch, room_for};
pub use steps::{LaneProgram, LaneStep};
