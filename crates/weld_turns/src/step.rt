//! Instructions on words, to which a turn over i64 is lowered, each with what follows it.

/// An instruction on words, each an i64, and what follows it. A place is the number of a word, from 0.
#[cycle(step)]
#[derive(Drop)]
pub enum Step {
    /// This word put into a place.
    Put(usize, i64, Box<Step>),
    /// Into a place the word of another.
    Copy(usize, usize, Box<Step>),
    /// Into a place the wrapped sum of the words of two.
    Sum(usize, usize, usize, Box<Step>),
    /// The same of the word of one and this word.
    SumWith(usize, usize, i64, Box<Step>),
    /// The wrapped difference.
    Difference(usize, usize, usize, Box<Step>),
    /// The same with this word.
    DifferenceWith(usize, usize, i64, Box<Step>),
    /// The wrapped product.
    Product(usize, usize, usize, Box<Step>),
    /// The same with this word.
    ProductWith(usize, usize, i64, Box<Step>),
    /// The wrapped quotient, truncated; by 0 it is a fault.
    Quotient(usize, usize, usize, Box<Step>),
    /// The same by this word.
    QuotientWith(usize, usize, i64, Box<Step>),
    /// The remainder, with the sign of the dividend; by 0 it is a fault.
    Remainder(usize, usize, usize, Box<Step>),
    /// The same by this word.
    RemainderWith(usize, usize, i64, Box<Step>),
    /// Where the words of two places are equal the one, else the other.
    IfEqual(usize, usize, Box<Step>, Box<Step>),
    /// The same of the word of one and this word.
    IfEqualWith(usize, i64, Box<Step>, Box<Step>),
    /// Where the first is less.
    IfLess(usize, usize, Box<Step>, Box<Step>),
    /// The same of the word of one and this word.
    IfLessWith(usize, i64, Box<Step>, Box<Step>),
    /// Where the first is at most the second.
    IfAtMost(usize, usize, Box<Step>, Box<Step>),
    /// The same of the word of one and this word.
    IfAtMostWith(usize, i64, Box<Step>, Box<Step>),
    /// Where the word of a place is more than this word.
    IfMoreWith(usize, i64, Box<Step>, Box<Step>),
    /// Where it is at least this word.
    IfAtLeastWith(usize, i64, Box<Step>, Box<Step>),
    /// The turn ends: the first place of the next state, and whether to go on.
    End(usize, bool),
}

/// What an instruction works on: the word of a place, or this word.
#[derive(Clone, Copy)]
pub enum Operand {
    Place(usize),
    Word(i64),
}
