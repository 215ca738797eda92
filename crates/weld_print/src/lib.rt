//! The one printed spelling of programs.
#![tactic(auto)]

pub mod leaves;
pub mod names;
pub mod operands;
pub mod reads_back;
pub mod types;
pub mod write;

pub use write::print;
