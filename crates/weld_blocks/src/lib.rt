//! The numbers that expressions come to on the rows of a block: each expression is worked out for all rows at once, by one loop.
#![tactic(auto)]

mod arithmetic;
mod choices;
pub mod columns;
mod dictionaries;
mod gather;
mod items;
pub mod leaves;
mod lent;
mod noting;
pub mod numbers;
mod operations;
mod outer;
pub mod picking;
pub mod scalar;
pub mod scope;
pub mod structs;
mod turning;
mod works;
