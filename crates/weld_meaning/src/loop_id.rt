/// A loop of a program, by its number in the order of the text, from 0: a `for` stands before those
/// in its legs, its builder and its body.
#[derive(Clone, Copy, Debug, PartialEq, Eq, Hash)]
pub struct LoopId(pub u32);
