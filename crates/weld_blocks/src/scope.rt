//! The names that the rows of a block see.

ghost use Rattle.std.specs.Prelude.{◌≡◌, ◌∷◌, ℕ, get_or};
ghost use Rattle.weld_meaning.specs.Thing.{plain};
ghost use Rattle.weld_blocks.specs.Scope.{bound_at, scope_env, row_env};

use crate::numbers::Numbers;
use weld_eval::frame::Frame;
use weld_eval::legs::Legs;
use weld_eval::thing::Owned;
use weld_tree::Sym;

/// The rows of a loop from a number on: the names outside, what the loop's own builder's name stands for, the legs, and the
/// names of the builder, the row's number and the row.
#[derive(Clone, Copy)]
pub struct Rows<'a> {
    pub frame: &'a Frame<'a>,
    pub own: &'a Owned,
    pub legs: &'a Legs<'a>,
    pub own_name: Sym,
    pub count_name: Sym,
    pub row_name: Sym,
    pub from: usize,
}

/// What a `let` binds: numbers, one for each row, or structs of numbers, the numbers of each field being together.
#[derive(Drop)]
pub enum Bound {
    Number(Numbers),
    Fields(Vec<Numbers>),
}

/// The names of such rows, and those that were bound since, the newest first. Rows may be picked among so many by their places: then
/// each name stands for what it stands for there.
#[derive(Clone, Copy)]
pub enum Scope<'a> {
    Rows(&'a Rows<'a>),
    Let(Sym, &'a Bound, &'a Scope<'a>),
    Picked(&'a [usize], usize, &'a Scope<'a>),
}

/// The names of rows. It takes no memory.
pub fn of_rows<'a>(rows: &'a Rows<'a>) -> Scope<'a>
    ensures { (place : ℕ) → scope_env result place ≡ row_env rows.now place }
{
    Scope::Rows(rows)
}

/// The names on the rows of these places among so many. It takes no memory.
pub(crate) fn with_picked<'a>(places: &'a [usize], total: usize, rest: &'a Scope<'a>) -> Scope<'a>
    ensures { (place : ℕ) → scope_env result place
        ≡ scope_env rest.now (get_or places.now place 0) }
{
    Scope::Picked(places, total, rest)
}

/// The names with one more. It takes no memory.
pub fn with_bound<'a>(name: Sym, bound: &'a Bound, rest: &'a Scope<'a>) -> Scope<'a>
    ensures { (place : ℕ) → scope_env result place ≡ (name.0, plain (bound_at bound.now place))
        ∷ scope_env rest.now place }
{
    Scope::Let(name, bound, rest)
}
