//! The lines of a script of library calls: which statement a line is, by its tokens.

mod arguments;
mod columns;
pub mod laws;
pub mod line;
mod parts;
pub mod statement;
pub mod statements;

pub use line::read_line;
pub use statement::{Argument, Arguments, Column, Columns, Saying, Statement};
pub use statements::read_statement;
