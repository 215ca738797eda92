//! The typing rules as a walk over a program: which rule refuses it first, and where.
#![tactic(auto)]

pub mod laws;
pub mod rules;
pub mod scope;
mod tests;

pub use rules::{
    check_answer, check_loop_body, check_loop_notes, check_note, check_param, check_state,
    check_turn, leaf_type, many_type, one_type, row_type, three_type, two_type,
};
pub use scope::Scope;
