//! Tests of `weld_uses`.
//!
//! They stand in a crate of their own, since a crate with tests is proved twice.

pub mod accepting;
pub mod programs;
#[cfg(test)]
mod uses;
