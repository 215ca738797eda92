//! What the body of an `iterate` over numbers is made to: numbers worked out from slots, and what a turn does.

ghost use Rattle.std.specs.Prelude.{◌≡◌, ◌≤◌};
ghost use Rattle.weld_turns.specs.Scopes.{room_of};

use weld_data::{BinOp, Kind};
use weld_eval::short::Short;
use weld_tree::Sym;

/// A number that is worked out from the numbers of slots.
#[cycle(code)]
#[derive(Drop)]
pub enum Code {
    /// The number of a slot.
    Slot(usize),
    /// This number.
    Literal(Short),
    /// An operator between two.
    Work(BinOp, Box<Code>, Box<Code>),
    /// The wrapped opposite.
    Opposite(Box<Code>),
    /// The other truth value.
    Contrary(Box<Code>),
    /// The number wrapped to a kind.
    Cast(Kind, Box<Code>),
    /// By a truth value the one or the other, which alone is worked out.
    Choice(Box<Code>, Box<Code>, Box<Code>),
    /// By a truth value the one or the other, where both are worked out.
    Select(Box<Code>, Box<Code>, Box<Code>),
}

/// Numbers that are put into slots, one after another.
#[cycle(filling)]
#[derive(Drop)]
pub enum Filling {
    /// A number put into a slot.
    Put(usize, Code),
    /// The one, and then the other.
    Then(Box<Filling>, Box<Filling>),
    /// By a truth value the one or the other, which alone is done.
    Either(Code, Box<Filling>, Box<Filling>),
}

/// What a turn does: slots filled, choices, and at the end the slots of the next state and whether to go on.
#[cycle(turn)]
#[derive(Drop)]
pub enum Turn {
    /// Slots filled, and what follows.
    First(Filling, Box<Turn>),
    /// By a truth value the one or the other.
    Either(Code, Box<Turn>, Box<Turn>),
    /// The first slot of the next state, and whether to go on.
    End(usize, Code),
}

/// How many fields a struct in slots has at most; no struct of a program has more.
pub const MOST_FIELDS: usize = 16;

/// What stands in slots that follow each other: one number, or a struct of so many.
#[derive(Clone, Copy, Debug, PartialEq, Eq)]
pub enum Shape {
    /// One number.
    One,
    /// A struct of numbers, by how many fields it has.
    Fields(u8),
}

/// How many slots a shape takes.
#[inline(always)]
pub fn room(shape: Shape) -> usize
    ensures exact { result ≡ room_of shape }
    ensures few { result ≤ 255 }
{
    match shape {
        Shape::One => 1,
        Shape::Fields(count) => count as usize,
    }
}

/// Where the value of a name stands: its shape, and its first slot.
#[derive(Clone, Copy)]
pub struct Place {
    pub shape: Shape,
    pub first: usize,
}

/// The struct that a name stands for, of whose first fields some are numbers in slots.
#[derive(Clone, Copy)]
pub struct Spread {
    /// The name that stood for the whole outside of the slots.
    pub name: Sym,
    /// The first of its slots: field k has the k-th one from there on.
    pub first: usize,
    /// How many fields have a slot.
    pub fields: usize,
    /// Which of them stand there: field k where bit k is set.
    pub taken: u64,
}

/// Where the value of a name stands.
#[derive(Clone, Copy)]
pub enum Site {
    /// Whole, in slots.
    Whole(Place),
    /// Fields of it alone, in slots.
    Spread(Spread),
}

/// What a name of a row is seen as.
#[derive(Clone, Copy)]
pub enum Seen {
    /// A number of kind i64.
    Number,
    /// A struct of whose first fields, `count` of them, those whose bit is set in `taken` are such numbers.
    Fields { count: usize, taken: u64 },
}

/// A name of a row, and what it is seen as.
#[derive(Clone, Copy)]
pub struct Named {
    /// The name.
    pub name: Sym,
    /// What it is seen as.
    pub seen: Seen,
}

/// Why nothing came of it: a fault, or something that isn't numbers, of which nothing is said.
#[derive(Clone, Copy)]
pub enum Halt {
    Fault,
    Other,
}

/// Why no code was made: it isn't of the form, or memory is wanting.
#[derive(Drop)]
pub enum Unmade {
    Other,
    Memory,
}
