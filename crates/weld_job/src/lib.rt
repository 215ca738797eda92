//! A job: how its bytes are read, and how they are cut into the program's text and the blocks of its data.
#![tactic(auto)]

pub mod block;
pub mod job;
pub mod laws;
mod lines;
pub mod read;
pub mod split;

pub use block::{Block, BlockForm};
pub use job::{Job, JobFault};
pub use read::{JOB_LIMIT, read_job};
pub use split::split_blocks;

#[cfg(test)]
mod tests;
