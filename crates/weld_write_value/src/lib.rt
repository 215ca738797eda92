//! Values as text, written.
#![tactic(auto)]

mod cell;
mod structs;
mod write;

pub use write::{is_i8, write_byte, write_value};
