//! What lets a program be evaluated one element after another: the things that expressions come to,
//! the names in scope, the rows of loops, the forms on things, and the laws that an evaluator in the
//! code rests on.
#![tactic(auto)]

pub mod forms;
pub mod frame;
pub mod laws;
pub mod legs;
pub mod names;
pub mod number;
pub mod row;
pub mod short;
pub mod thing;
pub mod values;
pub mod word_arithmetic;
