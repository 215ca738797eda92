//! Tests of `weld_substitution`.
//!
//! They stand in a crate of their own, since a crate with tests is proved twice.

#[cfg(test)]
mod names;
