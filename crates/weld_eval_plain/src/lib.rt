//! What a program is evaluated by, as definitions with their laws: the nodes of an expression and what
//! each takes, the rows of a loop one after another, the turns of an `iterate`.
#![tactic(auto)]

pub mod laws;
