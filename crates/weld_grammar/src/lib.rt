//! The grammar of Weld programs as one table, and its laws: the tokens that derive a program are those
//! after whose every token something is pending.
#![tactic(auto)]

pub mod item;
pub mod laws;
pub mod rule;
pub mod terminal;
pub mod terminals;

pub use item::Item;
pub use rule::Rule;
pub use terminal::Terminal;
