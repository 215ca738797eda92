//! What Weld programs mean: which types expressions have, how builders are used, and how programs
//! are evaluated one element after another. It has definitions and laws; a law is the contract of a
//! function of `laws` that does nothing.
#![tactic(auto)]

pub mod accepted;
pub mod laws;
pub mod loop_id;

pub use accepted::Accepted;
pub use loop_id::LoopId;
