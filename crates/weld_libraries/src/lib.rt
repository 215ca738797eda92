//! Calls of the two libraries, added to a graph of objects that wait.
#![tactic(auto)]

mod add;
mod fitting;
pub mod fragments;

pub use add::add_library_call;
