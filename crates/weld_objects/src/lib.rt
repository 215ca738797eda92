//! Objects that wait: values, and calls of programs on objects before them; what they come to, and
//! the one program that they are lowered to.
#![tactic(auto)]

pub mod answer_type;
pub mod laws;
pub mod renaming;
