//! What every pass stands on: a walk over a tree, a node that is replaced, rounds until nothing is left to do.
#![tactic(auto)]

pub mod pass;
pub mod replacing;
pub mod rounds;
pub mod sweep;
