//! Programs from texts: the program that a text spells, or the first rule that refuses it.
#![tactic(auto)]

mod findings;
pub mod laws;
pub mod program;
pub mod reading;

pub use program::{Unread, read_program};
pub use reading::parse;
