//! The states with which the turns of an `iterate` end on the rows of a block. The instructions of a turn are made once for all of
//! them. It is done where the state is a number of kind i64 or a struct of two such, the names of a row that the body uses stand
//! for such numbers or for structs of which it takes such fields, and the body can be lowered.

ghost use Rattle.std.specs.Prelude.{◌≡◌, ◌<◌, ◌≤◌, ℕ, true, length, get_or, pos, IfSome};
ghost use Rattle.weld_data.specs.declared.kind.Kind.TheVariants as kinds;
ghost use Rattle.weld_data.specs.Value.{number};
ghost use Rattle.weld_built.specs.Pair.{pair};
ghost use Rattle.weld_eval.specs.FrameView.{env_of};
ghost use Rattle.weld_turns.specs.OnRows.{state_of, EndsWith};
ghost use Rattle.weld_blocks.specs.Numbers.{count_of, number_at, MayBeNumbers, MayGive};
ghost use Rattle.weld_blocks.specs.Scope.{bound_at, row_env, scope_env};
ghost use Rattle.weld_blocks.specs.Structs.{AreCounted, AreLonger};
ghost use Rattle.weld_blocks.specs.Turned.{outer_env, part_at, state_at, word_in, words_in, AreEnds, AreLast, IsFieldOf, IsNoted, NamesGive, StandApart};

use crate::gather::{Gives, gather};
use crate::noting::{note_names, outer_frame};
use crate::numbers::{Numbers, is_same, word_at};
use crate::scope::{Bound, Scope};
use std::alloc::Global;
use weld_data::Kind;
use weld_eval::short::Short;
use weld_tree::{Expr, Exprs, Form, LeafForm, ManyForm, OneForm, Sym, ThreeForm, TwoForm};
use weld_turns::code::Shape;
use weld_turns::{MOST_WORDS, Step, end_of_turns, made_turn};

/// A state of one or two numbers of kind i64, in words; of a single number the second doesn't matter.
#[derive(Clone, Copy)]
pub(crate) struct State {
    pub first: i64,
    pub second: i64,
}

/// Which states are asked for: single numbers, structs of two, or any.
#[derive(Clone, Copy, PartialEq, Eq)]
pub(crate) enum Asked {
    One,
    Pair,
    Any,
}

/// States of a shape, one for each row.
#[derive(Drop)]
pub(crate) struct States {
    pub shape: Shape,
    pub items: Vec<State>,
}

/// The words of columns at a place. It takes no memory.
fn put_row(columns: &[Numbers], place: usize, row: &mut [i64])
    requires long { length row.old ≡ length columns.now }
    requires there { AreLonger columns.now place }
    ensures { row.new ≡ words_in columns.now place }
{
    for k in 0..columns.len() {
        let column = &columns[k];
        row[k] = word_at(&column.items, place);
    }
}

/// The state with which the turns of the row of a place end, where they end. The row's words are written into the room for them.
fn end_at(
    step: &Step,
    shape: Shape,
    first: &Numbers,
    second: &Numbers,
    columns: &[Numbers],
    place: usize,
    row: &mut [i64],
) -> Option<State>
    requires first { place < count_of first.now }
    requires second { place < count_of second.now }
    requires columns { AreLonger columns.now place }
    requires row { length row.old ≡ length columns.now }
    ensures { IfSome result (λ s. EndsWith step.now shape (words_in columns.now place)
        (state_of shape (word_in first.now place) (word_in second.now place))
        (state_of shape s.first s.second)) }
{
    put_row(columns, place, row);
    let x = word_at(&first.items, place);
    let y = word_at(&second.items, place);
    match end_of_turns(step, shape, x, y, &*row) {
        Some((first, second)) => Some(State { first, second }),
        None => None,
    }
}

/// Those of all rows, so many as there is room for; it tells whether all ended.
#[tactic(auto, using(crate::proofs::StructLemmas::longer))]
fn end_each(
    step: &Step,
    shape: Shape,
    first: &Numbers,
    second: &Numbers,
    columns: &[Numbers],
    states: &mut [State],
    row: &mut [i64],
) -> bool
    requires first { length states.old ≤ count_of first.now }
    requires second { length states.old ≤ count_of second.now }
    requires columns { AreCounted columns.now (length states.old) }
    requires row { length row.old ≡ length columns.now }
    ensures { result ≡ true → (j : ℕ) → j < length states.old → EndsWith step.now shape
        (words_in columns.now j) (state_of shape (word_in first.now j) (word_in second.now j))
        (state_at shape states.new j) }
{
    for place in 0..states.len() {
        match end_at(step, shape, first, second, columns, place, row) {
            Some(state) => states[place] = state,
            None => return false,
        }
    }
    true
}

/// The states with which turns end on so many rows, where none faults and there is memory for them.
fn end_all(
    step: &Step,
    shape: Shape,
    first: &Numbers,
    second: &Numbers,
    columns: &[Numbers],
    count: usize,
    alloc: Global,
) -> Option<Vec<State>>
    requires first { count ≤ count_of first.now }
    requires second { count ≤ count_of second.now }
    requires columns { AreCounted columns.now count }
    ensures { IfSome result (λ ss. (j : ℕ) → j < count → EndsWith step.now shape
        (words_in columns.now j) (state_of shape (word_in first.now j) (word_in second.now j))
        (state_at shape ss.items j)) }
{
    let none = State {
        first: 0,
        second: 0,
    };
    let mut states = match vec![in alloc; none; count] {
        Ok(states) => states,
        Err(_) => return None,
    };
    let mut row = match vec![in alloc; 0i64; columns.len()] {
        Ok(row) => row,
        Err(_) => return None,
    };
    if !end_each(step, shape, first, second, columns, &mut states, &mut row) {
        return None;
    }
    Some(states)
}

/// Whether the expression has only forms of which instructions are made. Nothing rests on it: it spares a block what would be done
/// in vain.
#[cycle(words)]
fn goes_by_words(e: &Expr) -> bool {
    match &e.form {
        Form::Leaf(LeafForm::Int(kind, _)) => is_same(*kind, Kind::I64),
        Form::Leaf(LeafForm::Name(_)) | Form::Leaf(LeafForm::Truth(_)) => true,
        Form::One(OneForm::Neg, part) | Form::One(OneForm::Not, part) => goes_by_words(part),
        Form::One(OneForm::Field(_), part) => goes_by_words(part),
        Form::Two(TwoForm::Binary(_), first, second) => {
            goes_by_words(first) && goes_by_words(second)
        }
        Form::Two(TwoForm::And, first, second) | Form::Two(TwoForm::Or, first, second) => {
            goes_by_words(first) && goes_by_words(second)
        }
        Form::Three(ThreeForm::If, test, first, second) => {
            goes_by_words(test) && goes_by_words(first) && goes_by_words(second)
        }
        Form::Many(ManyForm::Struct, parts) => all_by_words(parts),
        Form::Let(_, value, body) => goes_by_words(value) && goes_by_words(body),
        _ => false,
    }
}

/// The same of several.
#[cycle(words)]
fn all_by_words(parts: &Exprs) -> bool {
    for part in parts.as_slice() {
        if !goes_by_words(part) {
            return false;
        }
    }
    true
}

/// The states with which the turns of a body end that begin with these, where all is of kind i64.
fn ends_from<'a>(
    name: Sym,
    body: &Expr,
    shape: Shape,
    first: &Numbers,
    second: &Numbers,
    scope: &'a Scope<'a>,
    count: usize,
    alloc: Global,
) -> Option<Vec<State>>
    ensures { IfSome result (λ ss. AreLast name.0 body.now (scope_env scope.now)
        (λ j. state_of shape (word_in first.now j) (word_in second.now j))
        (state_at shape ss.items) count) }
{
    if first.len() < count || second.len() < count {
        return None;
    }
    if !goes_by_words(body) {
        return None;
    }
    let mut names = Vec::new(alloc);
    let mut columns = Vec::new(alloc);
    if !note_names(body, scope, scope, count, &mut names, &mut columns, alloc) {
        return None;
    }
    if columns.as_slice().len() > MOST_WORDS {
        return None;
    }
    match made_turn(name, body, shape, &names, outer_frame(scope), alloc) {
        Ok(step) => end_all(&step, shape, first, second, &columns, count, alloc),
        Err(_) => None,
    }
}

/// The same from what the turns start with, where a state of its shape is asked for.
pub(crate) fn ends_of(
    name: Sym,
    body: &Expr,
    start: &Bound,
    asked: Asked,
    scope: &Scope,
    count: usize,
    alloc: Global,
) -> Option<States>
    ensures { IfSome result (λ ss. AreLast name.0 body.now (scope_env scope.now)
        (bound_at start.now) (state_at ss.shape ss.items.items) count) }
{
    match start {
        Bound::Number(x) => {
            if asked == Asked::Pair || !is_same(x.kind, Kind::I64) {
                return None;
            }
            match ends_from(name, body, Shape::One, x, x, scope, count, alloc) {
                Some(items) => Some(States {
                    shape: Shape::One,
                    items,
                }),
                None => None,
            }
        }
        Bound::Fields(fields) => {
            let fields = fields.as_slice();
            if asked == Asked::One || fields.len() != 2 {
                return None;
            }
            let x = &fields[0];
            let y = &fields[1];
            if !is_same(x.kind, Kind::I64) || !is_same(y.kind, Kind::I64) {
                return None;
            }
            match ends_from(name, body, Shape::Fields(2), x, y, scope, count, alloc) {
                Some(items) => Some(States {
                    shape: Shape::Fields(2),
                    items,
                }),
                None => None,
            }
        }
    }
}

/// One of the numbers of each state.
#[derive(Clone, Copy)]
struct Part<'a> {
    states: &'a [State],
    is_second: bool,
}

impl<'a> Gives for Part<'a> {
    ghost use Rattle.weld_blocks.specs.Turned.{part_at};

    ghost gives = { λ p place v. v ≡ number kinds.I64 (part_at p.is_second p.states.now place) };

    #[inline(always)]
    fn at(&self, place: usize) -> Option<Short> {
        if place < self.states.len() {
            let state = self.states[place];
            Some(Short::of_i64(if self.is_second {
                state.second
            } else {
                state.first
            }))
        } else {
            None
        }
    }
}

/// One of the numbers of each state, as a column.
fn part_of(states: &[State], is_second: bool, count: usize, alloc: Global) -> Option<Numbers>
    ensures { MayGive (λ place v. v ≡ number kinds.I64 (part_at is_second states.now place)) result
        count }
{
    let part = Part { states, is_second };
    gather(alloc, count, &part)
}

/// The states as numbers, where each is a single number.
pub(crate) fn single_numbers(states: &States, count: usize, alloc: Global) -> Option<Numbers>
    ensures { MayGive (λ place v. v ≡ state_at states.now.shape states.now.items.items place) result
        count }
{
    match states.shape {
        Shape::One => part_of(&states.items, false, count, alloc),
        Shape::Fields(_) => None,
    }
}

/// Those of a field, from 0, where each is a struct of two.
pub(crate) fn numbers_of_field(
    field: u32,
    states: &States,
    count: usize,
    alloc: Global,
) -> Option<Numbers>
    ensures { MayGive (λ place v. IsFieldOf field (state_at states.now.shape states.now.items.items
        place) v) result count }
{
    match states.shape {
        Shape::One => None,
        Shape::Fields(_) => match field {
            0 => part_of(&states.items, false, count, alloc),
            1 => part_of(&states.items, true, count, alloc),
            _ => None,
        },
    }
}

/// The states as what a `let` binds.
pub(crate) fn bound_states(states: &States, count: usize, alloc: Global) -> Option<Bound>
    ensures { IfSome result (λ b. (j : ℕ) → j < count → bound_at b j ≡ state_at states.now.shape
        states.now.items.items j) }
{
    let first = match part_of(&states.items, false, count, alloc) {
        Some(first) => first,
        None => return None,
    };
    match states.shape {
        Shape::One => Some(Bound::Number(first)),
        Shape::Fields(_) => match part_of(&states.items, true, count, alloc) {
            Some(second) => two_columns(first, second, alloc),
            None => None,
        },
    }
}

/// Two columns as the fields of structs.
fn two_columns(first: Numbers, second: Numbers, alloc: Global) -> Option<Bound>
    ensures { IfSome result (λ b. (j : ℕ) → bound_at b j ≡ pair (number_at first j)
        (number_at second j)) }
{
    let mut columns = Vec::new(alloc);
    match (columns.push(first), columns.push(second)) {
        (Ok(()), Ok(())) => Some(Bound::Fields(columns)),
        _ => None,
    }
}
