//! Tests of weld_check_types and weld_check_types.
//!
//! They stand in a crate of their own, since a crate with tests is proved twice.

#[cfg(test)]
mod check;
#[cfg(test)]
mod notes;
pub mod trees;
