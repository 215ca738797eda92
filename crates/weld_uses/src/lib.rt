//! The walk over a program's builders: a program is refused by the first rule of linear use that it breaks, and one that
//! breaks none is accepted.
#![tactic(auto)]

mod acceptance;
mod chain;
mod rules;

pub use acceptance::{accept, check_uses};
