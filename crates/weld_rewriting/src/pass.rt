//! A pass over a program: a rule of rewriting, tried until it matches nowhere, and what that keeps
//! of the program, proved once for all passes.

mod either;
mod followed;
pub mod laws;
mod pass;

pub use either::Either;
pub use followed::Followed;
pub use pass::run_pass;
