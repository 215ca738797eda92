//! The one printed spelling of types.

pub mod write;

pub use write::{kind_word, print_ty, write_build, write_type};
