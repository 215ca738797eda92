//! Loops over a `zip` of which a leg is made by a loop that holds its builder wherever it likes, as one loop.
#![tactic(auto)]

mod each;
pub mod laws;
mod legs;
mod rebinding;
mod rule;

pub use rule::ZipHandedOver;
