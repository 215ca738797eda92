//! Runs of plans by tiles: stretches of the tiles of each loop are shared by workers, or mapped over the processors, and what
//! they make is joined in order.
#![tactic(auto)]

pub mod mapped;
pub mod note;
mod parallel;
mod sharing;
mod stretch;
mod tiled;
mod told;
mod way;

pub use mapped::{run_mapped, run_plan};
pub use note::RunNote;
