//! Where a use of a name stands.

/// What a use of a name is to the node around it: a whole leg of a loop, what `result` takes, what
/// a field is taken of, or something else.
#[derive(Clone, Copy, Debug, PartialEq, Eq)]
pub enum Spot {
    Leg,
    Finish,
    Field,
    Other,
}
