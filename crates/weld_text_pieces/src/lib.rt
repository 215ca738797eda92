//! Long lists read from text, and written as text, in pieces side by side.
#![tactic(auto)]

pub mod reading;
pub mod writing;
