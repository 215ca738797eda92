//! Tests of weld_data, and a caller that is proved from outside.
//!
//! They stand in a crate of their own, since a crate with tests is proved twice.
#![tactic(auto)]

pub mod arguments;
pub mod dictionaries;
#[cfg(test)]
mod lists;
pub mod pieces;
#[cfg(test)]
mod scalars;
pub mod trees_kept;
pub mod value_texts;
#[cfg(test)]
mod values;
