//! Tests of the first break of a text: for every symbol of the grammar a text that breaks there, and every form once.
//!
//! They stand in a crate of their own, since a crate with tests is proved twice.
#![tactic(auto)]

#[cfg(test)]
mod breaks;
#[cfg(test)]
mod derivations;
#[cfg(test)]
mod places;
#[cfg(test)]
mod words;
