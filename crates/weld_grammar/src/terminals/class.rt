use crate::terminals::reserved::Reserved;
use crate::terminals::symbol::Symbol;

/// What the grammar sees of a token.
#[derive(Clone, Copy, Debug, PartialEq, Eq)]
pub enum Class {
    /// A symbol.
    Symbol(Symbol),
    /// A word that is reserved.
    Reserved(Reserved),
    /// A word that isn't reserved.
    Name,
    /// Decimal digits: a number of kind i32.
    Int,
    /// Decimal digits and `L`: a number of kind i64.
    Long,
    /// `$` and one to nine digits: a field of a struct.
    Field,
    /// A string.
    Chars,
}
