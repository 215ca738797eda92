//! What is known behind some lines of a script, and what a statement makes of it.

mod call;
pub mod known;
pub mod laws;
mod table;

pub use known::{Known, LineFault};
