//! How a rule that binds no names is reduced.

use weld_tree::{ManyForm, ThreeForm, TwoForm};

/// It leaves what is there; it goes on with a line; it is a word or a sign, and one, two, three or a list of
/// expressions; a builder without a starting value; the type of a builder; it has a way of its own.
#[derive(Clone, Copy)]
pub enum Way {
    Rest,
    Line,
    Word,
    Two(TwoForm),
    Three(ThreeForm),
    Listed(ManyForm),
    Fresh,
    BuilderType,
    Own,
}
