use crate::code::Code;
use crate::place::Place;

/// Why a text is refused.
#[derive(Clone, Copy, Debug, PartialEq, Eq)]
pub enum Refusal {
    /// A rule refuses at a place.
    At(Code, Place),
    /// A limit on the whole is passed, which has no place.
    Size(Code),
    /// Memory was wanting.
    Memory,
}
