//! Tests of `weld_safe`.
//!
//! They stand in a crate of their own, since a crate with tests is proved twice.

#[cfg(test)]
mod safety;
