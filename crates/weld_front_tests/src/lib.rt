//! Tests of the top call: what the program's bytes can't show.
//!
//! They stand in a crate of their own, since a crate with tests is proved twice. What the bytes show is a
//! case below cases/.
#![tactic(auto)]

mod gates;
#[cfg(test)]
mod tests;
#[cfg(test)]
pub mod words;
