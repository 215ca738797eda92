//! Tables: blocks of comma-separated records, read straight into typed columns.
#![tactic(auto)]

mod cells;
mod choice;
mod column;
mod fault;
pub mod laws;
mod rows;
mod table;
mod verdict;
mod wanted;

pub use fault::TableFault;
pub use table::read_table;
pub use wanted::Wanted;
