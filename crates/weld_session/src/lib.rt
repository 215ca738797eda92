//! Scripts of library calls as one accepted program with its inputs, and what a script answers.
#![tactic(auto)]

mod add;
pub mod call_objects;
mod graph;
pub mod laws;
mod lower;
mod waiting;
mod whole;

pub use whole::{Gathered, gather};
