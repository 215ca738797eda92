//! Values read by several threads: a long list of scalars, of lists of them or of structs of both is cut at commas into pieces, which are read side by side into the places of one list.

mod counting;
mod cutting;
mod filling;
mod nested;
mod reading;

pub use reading::read_value;
