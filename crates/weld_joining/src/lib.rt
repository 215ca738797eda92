//! Two loops over one vector, side by side, as one loop.
#![tactic(auto)]

pub mod beside;
mod between;
mod both;
mod halves;
mod joining;
pub mod laws;
mod pairs;
mod parts;
mod pass;
mod rule;

pub use pass::join_loops;
pub use rule::Beside;
