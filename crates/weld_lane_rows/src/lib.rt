//! The rows of loops of plain arithmetic, run by lanes: what their bodies merge is worked out for 512 rows at once, in arrays of the
//! numbers' own width, and merged as one list.
#![tactic(auto)]

mod columns;
mod outside;
mod pieces;
mod rows;
pub mod words;

pub use rows::run_lanes;
