//! Loops over what other loops make that hold their builder in a pair, as one loop.
#![tactic(auto)]

mod apart;
pub mod laws;
mod lets;
pub mod parting;
mod pass;
mod rule;

pub use pass::fuse_held;
pub use rule::Opened;
