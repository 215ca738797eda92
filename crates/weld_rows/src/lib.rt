//! The evaluator. It goes over the expression itself: without a value for each number, and in place,
//! without a builder for each row, where each loop acts on its own builder.
#![tactic(auto)]

mod blocks;
mod expression;
mod forms;
mod plain;
mod range;
mod reads;
mod walk;

pub use expression::{evaluate, take_turns};
pub use plain::eval_plain;
pub use range::run_range;
