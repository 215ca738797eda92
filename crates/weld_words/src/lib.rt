//! The words of the command line.
#![tactic(auto)]

mod command_line;
pub mod laws;
mod numbers;
pub mod options;
mod read;

pub use options::{Command, Options, WordsFault};
pub use read::read_words;
