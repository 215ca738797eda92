ghost use Rattle.std.specs.Prelude.{◌≡◌, slice_get, Some};
ghost use Rattle.weld_calls.specs.CallTypes.{row};

use crate::pattern::Pattern;
use weld_data::BinOp;

/// A call of one of the two libraries, of vectors and of columns, without its arguments. `Sum`, `Min`
/// and `Max`.
#[derive(Clone, Copy, Debug, PartialEq, Eq)]
pub enum Call {
    /// The sums of the elements of two vectors, place by place.
    Add,
    /// Their differences.
    Sub,
    /// Their products.
    Mul,
    /// A vector's elements times a number.
    Scale,
    /// The second vector's elements where the first is true, the third's where it is false.
    Where,
    /// The sum of the products of the elements of two vectors.
    Dot,
    /// The sum of a vector's elements.
    Sum,
    /// The least of them.
    Min,
    /// The greatest of them.
    Max,
    /// So many elements of a vector from a place on.
    Slice,
    /// A vector's elements at the places that the second lists.
    Take,
    /// How often each place of the second vector stands in the first, added to the second.
    Histogram,
    /// The dot of each row with a vector.
    RowsDot,
    /// The column of that number, from 0, of a struct of columns.
    Column(u32),
    /// The elements where the second vector is true.
    Filter,
    /// Whether each element compares so with a number.
    Compare(BinOp),
    /// The operator's answers on the elements of two vectors, place by place.
    Arith(BinOp),
    /// How many elements are true.
    Count,
    /// For each key of the first vector the sum of the elements of the second beside it.
    GroupSum,
    /// For each key of the first vector the list of the elements of the second beside it.
    GroupList,
    /// For each key of the vector the number of its places.
    GroupCount,
}

impl Call {
    /// What the call wants of the argument of that number, from 0, or None past the last. It takes no
    /// memory.
    pub fn pattern(self, number: usize) -> Option<Pattern>
        ensures { result ≡ slice_get (row self) number }
    {
        match number {
            0 => Some(self.first()),
            1 => self.second(),
            2 => self.third(),
            _ => None,
        }
    }

    fn first(self) -> Pattern
        ensures { slice_get (row self) 0 ≡ Some result }
    {
        match self {
            Call::Add | Call::Sub | Call::Mul | Call::Scale | Call::Dot => Pattern::Numbers,
            Call::Sum | Call::Min | Call::Max => Pattern::Numbers,
            Call::Compare(_) | Call::Arith(_) => Pattern::Numbers,
            Call::Where | Call::Count => Pattern::Truths,
            Call::Slice | Call::Take | Call::Filter => Pattern::Items,
            Call::Histogram => Pattern::Places,
            Call::RowsDot => Pattern::Rows,
            Call::Column(_) => Pattern::Columns,
            Call::GroupSum | Call::GroupList | Call::GroupCount => Pattern::Keys,
        }
    }

    fn second(self) -> Option<Pattern>
        ensures { result ≡ slice_get (row self) 1 }
    {
        match self {
            Call::Add | Call::Sub | Call::Mul | Call::Dot => Some(Pattern::Numbers),
            Call::Arith(_) | Call::Where => Some(Pattern::Numbers),
            Call::RowsDot | Call::GroupSum => Some(Pattern::Numbers),
            Call::Scale | Call::Compare(_) => Some(Pattern::Number),
            Call::Slice => Some(Pattern::Place),
            Call::Take | Call::Histogram => Some(Pattern::Places),
            Call::Filter => Some(Pattern::Truths),
            Call::GroupList => Some(Pattern::Items),
            Call::Sum | Call::Min | Call::Max | Call::Count => None,
            Call::Column(_) | Call::GroupCount => None,
        }
    }

    fn third(self) -> Option<Pattern>
        ensures { result ≡ slice_get (row self) 2 }
    {
        match self {
            Call::Where => Some(Pattern::Numbers),
            Call::Slice => Some(Pattern::Place),
            _ => None,
        }
    }
}
