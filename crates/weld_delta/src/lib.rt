//! The action of a loop's body, and its law: a loop is its parts joined in order. Back ends that cut
//! the rows of a loop rest on it.
#![tactic(auto)]

pub mod action;

pub use action::{Action, body_action};
