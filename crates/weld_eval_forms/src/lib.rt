//! What each form of Weld makes of things that are already evaluated: all of an evaluator but its
//! recursion over the expression.
#![tactic(auto)]

pub mod legs;
mod release;
pub mod several;
mod starts;
pub mod triple;
pub mod turn;
pub mod twofold;
pub mod unary;
