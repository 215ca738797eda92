//! Tests of `weld_predicate` and `weld_passes`: programs, and what is printed of them afterwards; and of the lane marks of
//! loops.
//!
//! They stand in a crate of their own, since a crate with tests is proved twice.
#![tactic(auto)]

pub mod inline;
#[cfg(test)]
mod marks;
pub mod passing;
#[cfg(test)]
mod programs;
pub mod safe;
pub mod substitution;
