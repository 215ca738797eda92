//! Tests of the graph of objects that wait: what calls are refused for, and what objects are lowered to.
//!
//! They stand in a crate of their own, since a crate with tests is proved twice.

#[cfg(test)]
mod fragments;
#[cfg(test)]
mod tests;
