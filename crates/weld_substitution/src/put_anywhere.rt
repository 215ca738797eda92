//! Lets put in their place: which lets are, and that the body with the value put for the name may
//! take the place of such a `let`. A law is the contract of a function of `laws` that does nothing.

pub mod laws;
pub mod spot;

pub use spot::Spot;
