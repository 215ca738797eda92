//! Tests of `weld_inline`: programs, and what is printed of them when lets have been put in their place.
//!
//! They stand in a crate of their own, since a crate with tests is proved twice.

pub mod passing;
#[cfg(test)]
mod programs;
