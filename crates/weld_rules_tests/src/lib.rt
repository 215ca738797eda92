//! Calls of the rules of types and builders that no job reaches, and calls that fail.
#![tactic(auto)]

pub mod acts;
pub mod check_types;
pub mod uses;
