//! Hands of tiles, and how seats take tiles from them: the pure core of work that is shared by stealing.

pub mod event;
pub mod laws;
pub mod machine;
pub mod steps;

pub use event::{Event, Step};
pub use machine::Machine;
pub use steps::start_of;

#[cfg(test)]
mod tests;
