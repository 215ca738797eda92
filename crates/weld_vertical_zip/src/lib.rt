//! Lists that other loops make, on legs of a `zip`, made where they are used.
#![tactic(auto)]

pub mod laws;
mod pass;
mod producers;
pub mod rows;
mod rule;
mod sink;
pub mod zipping;
mod zips;

pub use pass::fuse_zipped;
pub use producers::starts_list;
pub use rule::{Zips, all_legs, item_of_start};
