//! Parts of builders: what a piece of a loop has merged, and how the parts of one builder join again.
#![tactic(auto)]

pub mod cells;
pub mod fields;
mod grow;
mod hash;
pub mod key;
pub mod key_map;
pub mod keyed;
pub mod laws;
pub mod list;
mod many;
mod number;
mod ordered;
mod pairs;
pub mod part;
pub mod total;
pub mod totals;
mod words;

pub use cells::{CellItem, CellsPart, CellsShape};
pub use keyed::KeyedPart;
pub use list::ListPart;
pub use part::Part;
pub use total::{TotalPart, TotalShape};
pub use totals::TotalsPart;
