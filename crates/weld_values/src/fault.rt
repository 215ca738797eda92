/// Why a text is no value of a type.
#[derive(Clone, Copy, Debug, PartialEq, Eq)]
pub enum DataFault {
    /// It doesn't read as one, even when the ranges of numbers are ignored.
    Syntax,
    /// It reads, and some number is outside its kind.
    Range,
    /// It reads, all numbers are in range, and a dictionary has equal keys.
    Repeat,
    /// Memory was wanting.
    Memory,
}
