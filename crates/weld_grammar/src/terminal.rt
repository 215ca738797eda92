use crate::terminals::{Reserved, Symbol};

/// A terminal of the grammar: what one token has to be.
#[derive(Clone, Copy)]
pub enum Terminal {
    /// This symbol.
    Sign(Symbol),
    /// This reserved word.
    Fixed(Reserved),
    /// Any word, reserved or not.
    Word,
    /// A word that isn't reserved.
    Name,
    /// A number, with or without `L`.
    Number,
    /// `$` and digits.
    Field,
    /// A string.
    Chars,
}
