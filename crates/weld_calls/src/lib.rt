//! The calls of the two libraries: which types their arguments may have, of which type the answer is,
//! and the program that a call stands for.
#![tactic(auto)]

pub mod call;
pub mod call_laws;
pub mod laws;
pub mod lists;
pub mod misfit;
pub mod pattern;

pub use call::Call;
pub use misfit::first_misfit;
pub use pattern::Pattern;
