//! One walk over owned expressions for all passes: a rule is tried at each node, its parts first.

pub mod rule;
mod walk;

pub use rule::Rule;
pub use walk::sweep;
