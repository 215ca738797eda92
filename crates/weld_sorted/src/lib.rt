//! The one order of all values on keys, and entries of dictionaries sorted by it.
#![tactic(auto)]

pub mod compare;
mod entry;
mod sorted;
pub mod start;

pub use compare::compare_values;
pub use entry::Entry;
pub use sorted::sort_entries;
pub use start::{compare_started, start_of};
