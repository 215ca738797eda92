//! Tests of the two libraries: each call once on arguments that it takes, and what calls are refused for.
//!
//! They stand in a crate of their own, since a crate with tests is proved twice.
#![tactic(auto)]

mod graphs;
#[cfg(test)]
pub mod lazy;
#[cfg(test)]
mod tests;
