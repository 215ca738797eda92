//! Programs under other numbers: each name and each binder of an expression is replaced by the
//! number that a map gives it. Laws say what stays.

pub mod binders;
pub mod laws;
pub mod numbering;
pub mod rename;

pub use binders::{Syms, binders_of};
pub use numbering::Numbering;
pub use rename::renamed_copy;
