//! Safe expressions: those in which nothing stands that can fault.
#![tactic(auto)]

pub mod laws;
mod safety;

pub use safety::never_faults;
