//! Tests of weld_print and weld_print: texts of two programs and of some types.
//!
//! They stand in a crate of their own, since a crate with tests is proved twice.

#[cfg(test)]
mod programs;
#[cfg(test)]
mod types;
