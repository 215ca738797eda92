//! What is still to be done of a turn while it is lowered.

ghost use Rattle.std.specs.Prelude.{◌≡◌};
ghost use Rattle.weld_turns.specs.Lowering.{ended_at, either_then, filled_then, put_then, rest_value, settled};

use crate::code::{Code, Filling, Turn};

/// What is still to be done of a turn.
#[derive(Clone, Copy)]
pub enum Rest<'a> {
    /// A turn, or the rest of one.
    Turn(&'a Turn),
    /// Slots filled, and what follows.
    Fill(&'a Filling, &'a Rest<'a>),
    /// A number put into a slot, and what follows.
    Put(usize, &'a Code, &'a Rest<'a>),
    /// By a truth value the one or the other.
    Either(&'a Code, &'a Rest<'a>, &'a Rest<'a>),
    /// The end of the turn: the first slot of the next state, and whether to go on.
    End(usize, bool),
}

/// A turn.
pub fn of_turn<'a>(turn: &'a Turn) -> Rest<'a>
    ensures { rest_value result ≡ settled turn.now }
{
    Rest::Turn(turn)
}

/// Slots filled, and what follows.
pub fn fill<'a>(filling: &'a Filling, rest: &'a Rest<'a>) -> Rest<'a>
    ensures { rest_value result ≡ filled_then filling.now (rest_value rest.now) }
{
    Rest::Fill(filling, rest)
}

/// A number put into a slot, and what follows.
pub fn put<'a>(to: usize, code: &'a Code, rest: &'a Rest<'a>) -> Rest<'a>
    ensures { rest_value result ≡ put_then to code.now (rest_value rest.now) }
{
    Rest::Put(to, code, rest)
}

/// By a truth value the one or the other.
pub fn either<'a>(test: &'a Code, x: &'a Rest<'a>, y: &'a Rest<'a>) -> Rest<'a>
    ensures { rest_value result ≡ either_then test.now (rest_value x.now) (rest_value y.now) }
{
    Rest::Either(test, x, y)
}

/// The end of the turn.
pub fn end<'a>(first: usize, go: bool) -> Rest<'a>
    ensures { rest_value result ≡ ended_at first go }
{
    Rest::End(first, go)
}
