//! Objects that wait: a graph of values and of calls of programs on them, lowered to one accepted
//! program.
#![tactic(auto)]

mod add;
mod calls;
mod chain;
mod close;
mod fault;
mod graph;
mod ids;
mod inputs;
pub mod laws;
mod lower;
mod marks;
mod object;
mod values;

pub use fault::{LazyFault, LibFault};
pub use graph::Graph;
pub use ids::{Ids, ObjectId};
pub use lower::Lowered;
pub use object::Fragment;
