//! Loops over one thing: a leg that stands twice in one loop stands once.
#![tactic(auto)]

mod doubles;
pub mod laws;
mod pass;
pub mod picked;
mod picks;
mod places;
mod plain;
mod row;
pub mod twice;

pub use doubles::Doubles;
pub use pass::join_legs;
pub use picks::Picks;
pub use row::{item_at, items_of};
