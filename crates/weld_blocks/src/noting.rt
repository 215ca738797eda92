//! The names of the rows that the body of an `iterate` uses, with their numbers: of each a column, or of a struct one for each
//! field up to the last one that is taken.

ghost use Rattle.std.specs.Prelude.{◌≡◌, ℕ, true, Some, IfSome};
ghost use Rattle.weld_meaning.specs.Environment.{look_for};
ghost use Rattle.weld_meaning.specs.Thing.{plain};
ghost use Rattle.weld_blocks.specs.Numbers.{AreGiven};
ghost use Rattle.weld_eval.specs.FrameView.{env_of};
ghost use Rattle.weld_blocks.specs.Scope.{row_env, scope_env};
ghost use Rattle.weld_blocks.specs.Turned.{outer_env, AreTaken, IsFieldColumn, IsNoted, IsNumberNoted, IsValue, NamesGive, StandApart, TakesFields};

use crate::columns::name_of;
use crate::leaves::{constant, field_named, named};
use crate::numbers::{Numbers, is_same};
use crate::scope::{Rows, Scope};
use std::alloc::Global;
use weld_acts::uses;
use weld_data::Kind;
use weld_eval::frame::Frame;
use weld_eval::short::Short;
use weld_tree::{Expr, Exprs, Form, LeafForm, OneForm, Sym};
use weld_turns::MOST_WORDS;
use weld_turns::code::{Named, Seen};

/// How many fields of a struct are looked at: no struct of a program has more.
const MOST_FIELDS: u32 = 16;

/// What stands outside of the rows. It takes no memory.
pub(crate) fn outer_frame<'a>(scope: &'a Scope<'a>) -> &'a Frame<'a>
    ensures { env_of result.now ≡ outer_env scope.now }
{
    match scope {
        Scope::Let(_, _, rest) => outer_frame(rest),
        Scope::Rows(rows) => rows.frame,
        Scope::Picked(_, _, rest) => outer_frame(rest),
    }
}

/// Whether the name stands for a value of the rows. It takes no memory.
#[tactic(auto, using(crate::proofs::NoteLemmas::value_here, crate::proofs::NoteLemmas::value_below, crate::proofs::NoteLemmas::value_of_rows, crate::proofs::NoteLemmas::value_picked))]
fn is_value(scope: &Scope, name: Sym) -> bool
    ensures { result ≡ true → (j : ℕ) → IsValue (look_for name.0 (scope_env scope.now j)) }
{
    match scope {
        Scope::Let(newest, _, rest) => {
            if newest.0 == name.0 {
                true
            } else {
                is_value(rest, name)
            }
        }
        Scope::Rows(rows) => rows.row_name.0 == name.0,
        Scope::Picked(_, _, rest) => is_value(rest, name),
    }
}

/// The bit that stands for the whole of a struct.
const WHOLE: u64 = 1 << 63;

/// The fields that the expression takes of what the name stands for, as bits. Nothing rests on it: of a field that isn't among them,
/// and of the whole, no instructions are made. A body with a loop has none.
#[cycle(taking)]
fn fields_taken(e: &Expr, name: Sym) -> u64 {
    match &e.form {
        Form::Leaf(LeafForm::Name(other)) if other.0 == name.0 => WHOLE,
        Form::Leaf(_) => 0,
        Form::One(OneForm::Field(field), part) => match name_of(part) {
            Some(other) if other.0 == name.0 && *field < MOST_FIELDS => 1 << *field,
            Some(_) => 0,
            None => fields_taken(part, name),
        },
        Form::One(_, part) => fields_taken(part, name),
        Form::Two(_, first, second) => fields_taken(first, name) | fields_taken(second, name),
        Form::Three(_, first, second, third) => {
            fields_taken(first, name) | fields_taken(second, name) | fields_taken(third, name)
        }
        Form::Many(_, parts) => taken_in(parts, name),
        Form::Let(_, value, body) | Form::Iterate(value, _, body) => {
            fields_taken(value, name) | fields_taken(body, name)
        }
        Form::For(_, _, _, _, _, _) => 0,
    }
}

/// The same of several.
#[cycle(taking)]
fn taken_in(parts: &Exprs, name: Sym) -> u64 {
    let mut taken = 0;
    for part in parts.as_slice() {
        taken |= fields_taken(part, name);
    }
    taken
}

/// The numbers of a field, where it is taken and they are of kind i64; zeros, which nothing reads, of one that isn't.
fn field_column(
    is_taken: bool,
    field: u32,
    name: Sym,
    scope: &Scope,
    count: usize,
    alloc: Global,
) -> Option<Numbers>
    ensures { IfSome result (λ c. IsFieldColumn is_taken field name.0 c (scope_env scope.now)
        count) }
{
    if !is_taken {
        return constant(Short::of_i64(0), count, alloc);
    }
    let numbers = match field_named(field, scope, name, count, alloc) {
        Some(numbers) => numbers,
        None => return None,
    };
    if !is_same(numbers.kind, Kind::I64) {
        return None;
    }
    Some(numbers)
}

/// Appends the numbers of each field from one on up to the last whose bit is set. It tells whether it could, and whether there are
/// words for so many.
#[tactic(auto, using(crate::proofs::NoteLemmas::no_fields, crate::proofs::NoteLemmas::one_taken))]
fn take_fields(
    bits: u64,
    field: u32,
    name: Sym,
    scope: &Scope,
    count: usize,
    columns: &mut Vec<Numbers>,
    alloc: Global,
) -> bool
    ensures { result ≡ true → TakesFields bits field name.0 columns.old.items columns.new.items
        (scope_env scope.now) count }
{
    if bits == 0 {
        return true;
    }
    if field >= MOST_FIELDS {
        return false;
    }
    if columns.as_slice().len() >= MOST_WORDS {
        return false;
    }
    let numbers = match field_column(bits % 2 == 1, field, name, scope, count, alloc) {
        Some(numbers) => numbers,
        None => return false,
    };
    match columns.push(numbers) {
        Ok(()) => {}
        Err(_) => return false,
    }
    take_fields(bits / 2, field + 1, name, scope, count, columns, alloc)
}

/// Notes a name that stands for a number of kind i64, with its numbers; it tells whether it could.
fn note_number(
    name: Sym,
    numbers: Numbers,
    names: &mut Vec<Named>,
    columns: &mut Vec<Numbers>,
) -> bool
    ensures { result ≡ true → IsNumberNoted name numbers names.old.items names.new.items
        columns.old.items columns.new.items }
{
    if columns.as_slice().len() >= MOST_WORDS {
        return false;
    }
    if !is_same(numbers.kind, Kind::I64) {
        return false;
    }
    let named = Named {
        name,
        seen: Seen::Number,
    };
    match names.push(named) {
        Ok(()) => {}
        Err(_) => return false,
    }
    match columns.push(numbers) {
        Ok(()) => {}
        Err(_) => return false,
    }
    true
}

/// Notes a name of the rows that stands for a struct, with the numbers of the fields that the body takes; it tells whether it
/// could.
#[tactic(auto, using(crate::proofs::NoteLemmas::pushed_noted, crate::proofs::NoteLemmas::fields_give))]
fn note_fields(
    body: &Expr,
    name: Sym,
    scope: &Scope,
    count: usize,
    names: &mut Vec<Named>,
    columns: &mut Vec<Numbers>,
    alloc: Global,
) -> bool
    requires { NamesGive names.old.items columns.old.items (scope_env scope.now) count }
    ensures noted { result ≡ true → IsNoted body.now name.0 names.old.items names.new.items }
    ensures give { result ≡ true → NamesGive names.new.items columns.new.items
        (scope_env scope.now) count }
{
    if !is_value(scope, name) {
        return false;
    }
    let taken = fields_taken(body, name);
    if taken == 0 {
        return false;
    }
    if taken >= WHOLE {
        return false;
    }
    let before = columns.as_slice().len();
    if !take_fields(taken, 0, name, scope, count, columns, alloc) {
        return false;
    }
    let named = Named {
        name,
        seen: Seen::Fields {
            count: columns.as_slice().len() - before,
            taken,
        },
    };
    match names.push(named) {
        Ok(()) => {}
        Err(_) => return false,
    }
    true
}

/// Notes a name of the rows, with its numbers, where the body uses it; tells whether it could, if it had to.
#[tactic(auto, using(crate::proofs::NoteLemmas::unused_noted))]
fn note(
    body: &Expr,
    name: Sym,
    scope: &Scope,
    count: usize,
    names: &mut Vec<Named>,
    columns: &mut Vec<Numbers>,
    alloc: Global,
) -> bool
    requires { NamesGive names.old.items columns.old.items (scope_env scope.now) count }
    ensures noted { result ≡ true → IsNoted body.now name.0 names.old.items names.new.items }
    ensures give { result ≡ true → NamesGive names.new.items columns.new.items
        (scope_env scope.now) count }
{
    if !uses(body, name) {
        return true;
    }
    match named(scope, name, count, alloc) {
        Some(numbers) => note_number(name, numbers, names, columns),
        None => note_fields(body, name, scope, count, names, columns, alloc),
    }
}

/// Notes all names of the rows that the body uses. `all` are the rows with all their names, `scope` those that are looked at still.
#[tactic(auto, using(crate::proofs::NoteLemmas::noted_let, crate::proofs::NoteLemmas::noted_picked, crate::proofs::NoteLemmas::noted_rows))]
pub(crate) fn note_names<'a>(
    body: &Expr,
    scope: &'a Scope<'a>,
    all: &'a Scope<'a>,
    count: usize,
    names: &mut Vec<Named>,
    columns: &mut Vec<Numbers>,
    alloc: Global,
) -> bool
    requires { NamesGive names.old.items columns.old.items (scope_env all.now) count }
    ensures apart { result ≡ true → StandApart body.now (scope_env scope.now) (outer_env scope.now)
        names.old.items names.new.items }
    ensures give { result ≡ true → NamesGive names.new.items columns.new.items (scope_env all.now)
        count }
{
    match scope {
        Scope::Let(name, _, rest) => {
            if !note(body, *name, all, count, names, columns, alloc) {
                return false;
            }
            note_names(body, rest, all, count, names, columns, alloc)
        }
        Scope::Picked(_, _, rest) => note_names(body, rest, all, count, names, columns, alloc),
        Scope::Rows(rows) => note_rows(body, rows, all, count, names, columns, alloc),
    }
}

/// The same of the names that each row has.
#[tactic(auto, using(crate::proofs::NoteLemmas::three_noted))]
fn note_rows(
    body: &Expr,
    rows: &Rows,
    all: &Scope,
    count: usize,
    names: &mut Vec<Named>,
    columns: &mut Vec<Numbers>,
    alloc: Global,
) -> bool
    requires { NamesGive names.old.items columns.old.items (scope_env all.now) count }
    ensures apart { result ≡ true → StandApart body.now (row_env rows.now)
        (env_of rows.now.frame.now) names.old.items names.new.items }
    ensures give { result ≡ true → NamesGive names.new.items columns.new.items (scope_env all.now)
        count }
{
    note(body, rows.own_name, all, count, names, columns, alloc)
        && note(body, rows.count_name, all, count, names, columns, alloc)
        && note(body, rows.row_name, all, count, names, columns, alloc)
}
