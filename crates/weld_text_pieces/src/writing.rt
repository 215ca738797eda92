//! Values written by several threads: a long list of scalars is cut into pieces, whose texts are written side by side and joined.

mod cell;
mod joining;
mod piece;
mod writing;

pub use writing::write_value;
