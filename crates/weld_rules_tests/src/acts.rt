//! Tests of `weld_acts`: which programs have only loops whose bodies act on the loop's own builder.
//!
//! They stand in a crate of their own, since a crate with tests is proved twice.

#[cfg(test)]
mod direct;
