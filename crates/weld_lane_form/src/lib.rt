//! The lane form lowered: the steps that mean the body of a loop of plain arithmetic.
#![tactic(auto)]

mod adding;
mod asking;
mod lets;
mod making;
mod marking;

pub use making::{LaneBody, LoopNames, lower};
pub use marking::mark_lanes;
