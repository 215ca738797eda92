//! Tests of weld_tree, and programs built by hand.
//!
//! They stand in a crate of their own, since a crate with tests is proved twice.

#[cfg(test)]
mod lists;
pub mod programs;
#[cfg(test)]
mod trees;
#[cfg(test)]
mod types;
