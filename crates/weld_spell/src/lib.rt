//! Which program the tokens of a text spell, and that they spell one at most.
#![tactic(auto)]

pub mod laws;
pub mod measures;
pub mod names;
pub mod programs;
