//! The names in expressions: which occur free, how often one is used, and a value put in a name's
//! place.
#![tactic(auto)]

mod free;
pub mod laws;
pub mod put_anywhere;
mod putting;
mod scope;
mod syms;
mod uses;

pub use free::free_syms;
pub use putting::{is_use, put_at, put_in};
pub use syms::Syms;
pub use uses::uses_of;
