//! Lets put in their place.
#![tactic(auto)]

pub mod laws;
mod loops_within;
mod pass;
mod plain;
mod redex;
mod rule;
mod spots;

pub use loops_within::has_loop;
pub use pass::inline_lets;
pub use rule::Lets;
