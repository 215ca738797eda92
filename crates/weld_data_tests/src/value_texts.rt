//! Tests of weld_values: what texts read as, and what is written of what was read.
//!
//! They stand in a crate of their own, since a crate with tests is proved twice.

#[cfg(test)]
mod texts;
