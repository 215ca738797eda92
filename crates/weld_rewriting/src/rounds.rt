//! Rounds of a rule of rewriting until it matches nowhere, and what they keep of an expression.

pub mod laws;
mod rounds;

pub use rounds::sweep_until_still;
