//! The evaluator, by the class of what is wanted: a number, a value, or what is done to a builder.
//!
//! Its flag `in_place` says that the body of each loop in the expression acts on the loop's own builder,
//! so that its rows are done in place; where it isn't set, what a row makes is appended.

mod acts;
mod appended;
mod legs;
mod lent;
mod numbers;
mod rows;
mod turns;
mod values;

pub use rows::hand_through;
pub use turns::run_turns;
pub use values::value;
