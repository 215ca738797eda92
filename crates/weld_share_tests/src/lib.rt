//! Tests of `weld_share`: the same value for all workers and cuts, each tile told once to the gate, what a run counts,
//! and both ways of running beside each other.
//!
//! They stand in a crate of their own, since a crate with tests is proved twice.
#![tactic(auto)]

#[cfg(test)]
mod both;
#[cfg(test)]
mod jobs;
#[cfg(test)]
mod recorder;
#[cfg(test)]
mod tests;
