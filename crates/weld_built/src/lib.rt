//! The five builders, each with what was merged into it. Numbers of one kind lie in an array of that
//! kind and under keys of one kind, so that a merge of a number makes no value. How items and keys are
//! kept is chosen at the first merge; where a later one doesn't fit, they are kept as values from then
//! on. Contracts see none of this.
#![tactic(auto)]

pub mod built;
mod cells;
mod fitting;
mod groups;
mod keyed;
mod list;
pub mod own;
mod pairs;
mod rows;
pub mod totals;

pub use built::Built;
