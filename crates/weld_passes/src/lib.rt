//! The optimiser: the rules of all passes, tried together until none matches.
#![tactic(auto)]

pub mod laws;
mod normal;
mod normal_form;
mod of_legs;
mod spare_legs;

pub use normal::Normal;
pub use normal_form::optimise;
