//! Loops over what loops make that hold their builder wherever they like, as one loop.
#![tactic(auto)]

pub mod laws;
mod over_list;
mod rule;

pub use rule::HandedOver;
