//! The walk over a program by the typing rules: its type, noted at each node, or the first refusal.

mod legs;
mod program;
mod walk;

pub use program::note_program;
pub use walk::note_types;
