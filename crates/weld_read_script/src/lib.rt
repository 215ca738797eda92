//! The reader of scripts of library calls: the script that a text is, or the first line that is refused.
#![tactic(auto)]

mod line;
pub mod read;
pub mod requests;
pub mod statements;
pub mod steps;

pub use read::{ScriptFault, read_script};
