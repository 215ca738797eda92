//! A table made from a number, and the fixed script on it.

pub mod laws;
mod script;
mod soak;
mod table;

pub use soak::{Soak, make_soak};
