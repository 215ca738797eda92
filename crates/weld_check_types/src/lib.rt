//! Programs are checked by the typing rules: what passes has a type.
#![tactic(auto)]

pub mod check;
pub mod type_walk;
pub mod typed;
pub mod unnoted;

pub use check::check_types;
pub use typed::Typed;
