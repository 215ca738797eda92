//! What a loop's body does to its builder on the rows of a block: what it merges is worked out for many rows at once, and then merged.
#![tactic(auto)]

mod arms;
pub mod body;
mod chosen;
pub mod deed;
mod lists;
mod named;
mod pairs;
pub mod puts;
mod rows;
mod texts;
mod through;

pub use body::block_of;
pub use deed::Deed;
pub use through::do_through;
