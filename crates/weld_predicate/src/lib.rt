//! Guarded merges, merged always.
#![tactic(auto)]

mod chains;
pub mod guarded;
mod guards;
pub mod laws;
mod mergers;
mod neutral;
mod pass;
mod rule;

pub use neutral::neutral_of;
pub use pass::predicate;
pub use rule::Guards;
