//! The type of an accepted program, which has one and doesn't carry it.

mod answer;
mod nodes;

pub use answer::answer_type;
