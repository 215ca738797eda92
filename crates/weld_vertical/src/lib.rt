//! Loops over what other loops make, as one loop.
#![tactic(auto)]

mod chain;
pub mod laws;
mod pass;
mod producers;
mod rule;
mod sink;
pub mod sinking;

pub use chain::fuse_chain;
pub use pass::fuse_vertical;
pub use rule::Loops;
