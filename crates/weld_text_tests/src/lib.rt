//! Calls on texts that no job reaches, and calls that fail.
#![tactic(auto)]

pub mod limits;
pub mod parse;
pub mod print;
pub mod tokens;
