//! What the body of a loop does, in place, to the builder that it acts on, and that this is what the
//! body means; and the law by which the parts of a loop's rows are joined in order.
#![tactic(auto)]

mod directness;
mod free;
pub mod laws;
mod path;

pub use directness::is_direct;
pub use free::uses;
