//! Tests of plans and their runs: programs with data, plainly and by their plans, the rows of loops cut in many ways.
//!
//! They stand in a crate of their own, since a crate with tests is proved twice. `prepare` makes jobs ready for these
//! tests and for those above, which run the same programs.
#![tactic(auto)]

#[cfg(test)]
mod by_tiles;
pub mod prepared;
pub mod programs;
#[cfg(test)]
mod tests;
