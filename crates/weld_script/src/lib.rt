//! Scripts of library calls: the objects that a script makes, one after another, and those that it shows.
#![tactic(auto)]

pub mod laws;
pub mod made;
pub mod script;
pub mod soak;
mod types;

pub use made::{Declared, Ids, Made, MadeList};
pub use script::Script;
