//! Builders as plain data, with their laws. A loop may be cut because the parts of its builders can
//! be joined again without a trace: this crate says in what sense. It has definitions and laws
//! alone; a law is the contract of a function of `laws` that does nothing.
#![tactic(auto)]

pub mod laws;
