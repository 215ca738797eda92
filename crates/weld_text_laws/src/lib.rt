//! Laws on texts: what is printed reads back, and what a script reads.
#![tactic(auto)]

pub mod round_trip;
pub mod scripts;
