//! Plans: the steps of a program above its shared loops, which are those that stand in no lambda but the top one.
#![tactic(auto)]

mod emit;
pub mod laws;
mod path;
pub mod plan;
pub mod step;

pub use path::is_path;
pub use plan::{Plan, make_plan};
pub use step::Step;
