//! The inputs of a script: read from the blocks of a job's data, one for each declaration.
#![tactic(auto)]

pub mod arguments;
mod block;
mod claim;
mod inputs;
pub mod laws;
mod sharing;

pub use inputs::read_inputs;
