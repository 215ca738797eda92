//! The part of groups: lists of items by keys, and how the parts of one builder join again.
#![tactic(auto)]

pub mod groups;
pub mod laws;
mod lists;
mod pairs;

pub use groups::GroupsPart;
