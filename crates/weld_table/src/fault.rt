/// Why a block's content gives no table. Of several reasons the first of this list is told.
#[derive(Clone, Copy, Debug, PartialEq, Eq)]
pub enum TableFault {
    /// There is no record, or a wanted column doesn't stand in the first one.
    Form,
    /// A record has another number of fields than the first one.
    Length,
    /// A wanted field doesn't read as its column's type, even when the ranges of numbers are ignored.
    Syntax,
    /// A wanted field's number is outside its kind.
    Range,
    /// Memory was wanting.
    Memory,
}
