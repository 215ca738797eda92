//! Values as text: read by the data grammar, and written.
#![tactic(auto)]

mod cell;
mod column;
mod digits;
mod fault;
mod flaw;
pub mod laws;
mod piece;
mod read;
mod string;
mod tokens;
mod whole;

pub use cell::Cell;
pub use fault::DataFault;
pub use piece::{fill_piece, fill_shallow_piece, inside_brackets, is_shallow};
pub use read::read_value;
pub use weld_write_value::write_value;
pub use whole::read_cell;
