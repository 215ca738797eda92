//! The numbers of names and of fields of rows.

ghost use Rattle.std.specs.Prelude.{◌≡◌, ◌+◌, ◌<◌, ◌≤◌, ◌∷◌, [], ℕ, true, length, map, Some, None, IfSome, slice_get};
ghost use Rattle.weld_data.specs.View.{view_column, view_val};
ghost use Rattle.weld_data.specs.Kind.{InRange};
ghost use Rattle.weld_data.specs.Value.{number};
ghost use Rattle.weld_builders.specs.Outcome.{done, and_then};
ghost use Rattle.weld_meaning.specs.Environment.{look_for};
ghost use Rattle.weld_meaning.specs.Evaluation.{found, whole_number};
ghost use Rattle.weld_meaning.specs.Meaning.{with_arguments};
ghost use Rattle.weld_meaning.specs.Thing.{plain, value_field, field_of as field_of_thing};
ghost use Rattle.weld_eval.specs.FrameView.{env_of};
ghost use Rattle.weld_eval.specs.LegsView.{lists_of};
ghost use Rattle.weld_eval.specs.RowLists.{row_in, rows_in};
ghost use Rattle.weld_eval.specs.ShortView.{view_short};
ghost use Rattle.weld_eval.specs.Word.{of_word};
ghost use Rattle.weld_eval.specs.ThingView.{thing_of};
ghost use Rattle.weld_blocks.specs.Numbers.{MayGive, number_at as number_of_place, HasFieldThere, MayGiveLeg};
ghost use Rattle.weld_blocks.specs.Scope.{bound_at, scope_env, row_env};

use crate::gather::{Gives, gather};
use crate::items::items_of;
use crate::numbers::Numbers;
use crate::operations::Counted;
use crate::picking::picked;
use crate::scope::{Bound, Rows, Scope};
use std::alloc::Global;
use weld_data::{Column, Kind, Structs, Val, Vals};
use weld_eval::frame::Frame;
use weld_eval::legs::{Legs, count_rows};
use weld_eval::number::{number_at, number_of};
use weld_eval::short::Short;
use weld_eval::thing::Owned;
use weld_tree::{Binders, Sym};

/// The elements of a column of values from a place on.
#[derive(Clone, Copy)]
struct Elements<'a> {
    column: &'a Column,
    from: usize,
}

impl<'a> Gives for Elements<'a> {
    ghost gives = { λ e place v. slice_get (view_column e.column.now) (e.from + place) ≡ Some v };

    #[inline(always)]
    fn at(&self, place: usize) -> Option<Short> {
        match self.from.checked_add(place) {
            Some(number) => {
                if number < self.column.len() {
                    number_at(self.column, number)
                } else {
                    None
                }
            }
            None => None,
        }
    }
}

/// So many elements of a column from a place on, where they are there and are numbers.
pub fn elements_of(column: &Column, from: usize, count: usize, alloc: Global) -> Option<Numbers>
    ensures { MayGive (λ place v. slice_get (view_column column.now) (from + place) ≡ Some v) result
        count }
{
    match column {
        Column::Bool(items) => items_of(items.as_slice(), from, count, alloc),
        Column::I8(items) => items_of(items.as_slice(), from, count, alloc),
        Column::I16(items) => items_of(items.as_slice(), from, count, alloc),
        Column::I32(items) => items_of(items.as_slice(), from, count, alloc),
        Column::I64(items) => items_of(items.as_slice(), from, count, alloc),
        Column::U8(items) => items_of(items.as_slice(), from, count, alloc),
        Column::U16(items) => items_of(items.as_slice(), from, count, alloc),
        Column::U32(items) => items_of(items.as_slice(), from, count, alloc),
        Column::U64(items) => items_of(items.as_slice(), from, count, alloc),
        Column::Structs(_) => None,
        Column::Nest(_) => {
            let of = Elements { column, from };
            gather(alloc, count, &of)
        }
    }
}

/// The column of the one leg.
#[tactic(auto, using(crate::proofs::LeafLemmas::one_leg))]
pub fn only_column<'a>(legs: &'a Legs<'a>) -> Option<&'a Column>
    ensures { IfSome result (λ c. lists_of legs.now ≡ view_column c.now ∷ []) }
{
    match legs {
        Legs::And(column, rest) => match rest {
            Legs::End => Some(column),
            Legs::And(_, _) => None,
        },
        Legs::End => None,
    }
}

/// The column of the leg of a place, from 0.
#[tactic(auto, using(weld_eval::proofs::LegLists::later_leg))]
fn column_at<'a>(legs: &'a Legs<'a>, place: u32) -> Option<&'a Column>
    ensures { IfSome result (λ c. slice_get (lists_of legs.now) place ≡ Some (view_column c.now)) }
{
    match legs {
        Legs::And(column, rest) => {
            if place == 0 {
                Some(column)
            } else {
                match column_at(rest, place - 1) {
                    Some(later) => Some(later),
                    None => None,
                }
            }
        }
        Legs::End => None,
    }
}

/// The numbers that a name stands for on so many rows, where it stands for a number on each.
#[tactic(auto, using(crate::proofs::LeafLemmas::name_here, crate::proofs::LeafLemmas::name_below, crate::proofs::LeafLemmas::name_of_rows, crate::proofs::PickLemmas::name_picked))]
pub(crate) fn named(scope: &Scope, name: Sym, count: usize, alloc: Global) -> Option<Numbers>
    ensures { MayGive (λ place v. look_for name.0 (scope_env scope.now place) ≡ Some (plain v))
        result count }
{
    match scope {
        Scope::Let(newest, bound, rest) => {
            if newest.0 == name.0 {
                numbers_bound(bound, count, alloc)
            } else {
                named(rest, name, count, alloc)
            }
        }
        Scope::Rows(rows) => named_by_rows(rows, name, count, alloc),
        Scope::Picked(places, total, rest) => match named(rest, name, *total, alloc) {
            Some(numbers) => picked(&numbers, places, count, alloc),
            None => None,
        },
    }
}

/// The numbers that are bound, where no structs are.
#[tactic(auto, using(crate::proofs::LeafLemmas::number_bound))]
fn numbers_bound(bound: &Bound, count: usize, alloc: Global) -> Option<Numbers>
    ensures { MayGive (λ place v. v ≡ bound_at bound.now place) result count }
{
    match bound {
        Bound::Number(numbers) => first_of(numbers, count, alloc),
        Bound::Fields(_) => None,
    }
}

/// The numbers of a field of the structs that are bound.
#[tactic(auto, using(crate::proofs::LeafLemmas::field_bound))]
fn field_of_bound(field: u32, bound: &Bound, count: usize, alloc: Global) -> Option<Numbers>
    ensures { MayGive (λ place v. value_field field (bound_at bound.now place) ≡ done v) result
        count }
{
    match bound {
        Bound::Number(_) => None,
        Bound::Fields(columns) => {
            let field = field as usize;
            if field < columns.len() {
                first_of(&columns[field], count, alloc)
            } else {
                None
            }
        }
    }
}

/// The same numbers, where there are so many.
#[tactic(auto, using(crate::proofs::LeafLemmas::copy_given))]
pub fn first_of(numbers: &Numbers, count: usize, alloc: Global) -> Option<Numbers>
    ensures { MayGive (λ place v. v ≡ number_of_place numbers.now place) result count }
{
    if numbers.len() == count {
        numbers.copy(alloc)
    } else {
        None
    }
}

/// The numbers that a name of rows stands for.
#[tactic(auto, using(crate::proofs::LeafLemmas::row_here, crate::proofs::LeafLemmas::count_here, crate::proofs::LeafLemmas::outside_here))]
fn named_by_rows(rows: &Rows, name: Sym, count: usize, alloc: Global) -> Option<Numbers>
    ensures { MayGive (λ place v. look_for name.0 (row_env rows.now place) ≡ Some (plain v)) result
        count }
{
    if rows.row_name.0 == name.0 {
        single_rows(rows.legs, rows.from, count, alloc)
    } else if rows.count_name.0 == name.0 {
        counts(rows.from, count, alloc)
    } else if rows.own_name.0 == name.0 {
        None
    } else {
        outside(rows.frame, name, count, alloc)
    }
}

/// The rows of one leg.
#[tactic(auto, using(crate::proofs::LeafLemmas::single_given))]
fn single_rows(legs: &Legs, from: usize, count: usize, alloc: Global) -> Option<Numbers>
    ensures { MayGive (λ place v. row_in (lists_of legs.now) (from + place) ≡ v) result count }
{
    match only_column(legs) {
        Some(column) => elements_of(column, from, count, alloc),
        None => None,
    }
}

/// The numbers of rows.
fn counts(from: usize, count: usize, alloc: Global) -> Option<Numbers>
    ensures { MayGive (λ place v. v ≡ whole_number (from + place)) result count }
{
    let of = Counted { from };
    gather(alloc, count, &of)
}

/// The number of a name outside, at each place.
#[tactic(auto, using(crate::proofs::LeafLemmas::outside_given))]
fn outside(frame: &Frame, name: Sym, count: usize, alloc: Global) -> Option<Numbers>
    ensures { MayGive (λ place v. look_for name.0 (env_of frame.now) ≡ Some (plain v)) result
        count }
{
    match number_named(frame, name) {
        Some(number) => constant(number, count, alloc),
        None => None,
    }
}

/// One number at each place.
pub(crate) fn constant(number: Short, count: usize, alloc: Global) -> Option<Numbers>
    ensures { MayGive (λ place v. v ≡ view_short number) result count }
{
    constant_of(number.kind, number.word, count, alloc)
}

/// The same of a number's kind and word.
fn constant_of(kind: Kind, x: i64, count: usize, alloc: Global) -> Option<Numbers>
    requires { InRange kind (of_word kind x) }
    ensures { MayGive (λ place v. v ≡ number kind (of_word kind x)) result count }
{
    match vec![in alloc; x; count] {
        Ok(items) => Some(Numbers { kind, items }),
        Err(_) => None,
    }
}

/// The number that a name stands for, where it stands for one. It takes no memory.
#[tactic(auto, using(weld_eval::proofs::Below::found_among, weld_eval::proofs::Below::found_below))]
fn number_named(frame: &Frame, name: Sym) -> Option<Short>
    ensures { IfSome result (λ n. look_for name.0 (env_of frame.now)
        ≡ Some (plain (view_short n))) }
{
    match frame {
        Frame::Arguments(params, values) => match argument(params, values, name) {
            Some(v) => number_of(v),
            None => None,
        },
        Frame::Value(bound, v, rest) => {
            if bound.0 == name.0 {
                number_of(v)
            } else {
                number_named(rest, name)
            }
        }
        Frame::Builder(bound, _, rest) => {
            if bound.0 == name.0 {
                None
            } else {
                number_named(rest, name)
            }
        }
        Frame::Number(bound, n, rest) => {
            if bound.0 == name.0 {
                Some(*n)
            } else {
                number_named(rest, name)
            }
        }
        Frame::Row(bound, row, rest) => {
            if bound.0 == name.0 {
                row.number()
            } else {
                number_named(rest, name)
            }
        }
        Frame::Names(names, rest) => match names.thing(name) {
            Some(x) => match number_in(x) {
                Some(n) => Some(n),
                None => None,
            },
            None => match number_named(rest, name) {
                Some(n) => Some(n),
                None => None,
            },
        },
    }
}

/// The number that a thing is, where it is one. It takes no memory.
fn number_in(x: &Owned) -> Option<Short>
    ensures { IfSome result (λ n. thing_of x.now ≡ plain (view_short n)) }
{
    match x {
        Owned::Value(v) => number_of(v),
        _ => None,
    }
}

/// The argument of a parameter, where there is one. It takes no memory.
#[tactic(auto, using(weld_eval::proofs::Arguments::found_there, weld_eval::proofs::Arguments::not_there, weld_eval::proofs::Arguments::ended))]
pub(crate) fn argument<'a>(params: &'a Binders, values: &'a Vals, name: Sym) -> Option<&'a Val>
    ensures { IfSome result (λ v. look_for name.0 (with_arguments params.now values.now)
        ≡ Some (plain (view_val v.now))) }
{
    let binders = params.as_slice();
    for i in 0..binders.len().min(values.len()) {
        if binders[i].sym.0 == name.0 {
            return Some(values.at(i));
        }
    }
    None
}

/// The numbers in a field of what a name stands for, where it is the row of several legs or a struct of numbers that was bound.
#[tactic(auto, using(crate::proofs::LeafLemmas::field_here, crate::proofs::LeafLemmas::field_below, crate::proofs::LeafLemmas::field_of_rows, crate::proofs::PickLemmas::field_picked))]
pub(crate) fn field_named(
    field: u32,
    scope: &Scope,
    name: Sym,
    count: usize,
    alloc: Global,
) -> Option<Numbers>
    ensures { MayGive (λ place v. and_then (found (look_for name.0 (scope_env scope.now place)))
        (field_of_thing field) ≡ done (plain v)) result count }
{
    match scope {
        Scope::Let(newest, bound, rest) => {
            if newest.0 == name.0 {
                field_of_bound(field, bound, count, alloc)
            } else {
                field_named(field, rest, name, count, alloc)
            }
        }
        Scope::Rows(rows) => {
            if rows.row_name.0 == name.0 {
                field_of_row(field, rows.legs, rows.from, count, alloc)
            } else {
                None
            }
        }
        Scope::Picked(places, total, rest) => match field_named(field, rest, name, *total, alloc) {
            Some(numbers) => picked(&numbers, places, count, alloc),
            None => None,
        },
    }
}

/// The numbers in a field of the rows: of several legs, or of one that keeps structs of numbers.
#[tactic(auto, using(crate::proofs::LeafLemmas::field_given, crate::proofs::LeafLemmas::packed_given))]
fn field_of_row(
    field: u32,
    legs: &Legs,
    from: usize,
    count: usize,
    alloc: Global,
) -> Option<Numbers>
    ensures { MayGive (λ place v. value_field field (row_in (lists_of legs.now) (from + place))
        ≡ done v) result count }
{
    match legs {
        Legs::And(column, rest) => match rest {
            Legs::And(_, _) => field_of_legs(field, legs, from, count, alloc),
            Legs::End => field_of_structs(field, column, from, count, alloc),
        },
        Legs::End => None,
    }
}

/// The numbers in a field of the structs of a column.
#[derive(Clone, Copy)]
struct FieldOfStructs<'a> {
    items: &'a Structs,
    from: usize,
    field: u32,
}

impl<'a> Gives for FieldOfStructs<'a> {
    ghost gives = { λ f place v. HasFieldThere f.field (slice_get f.items.now (f.from + place)) v };

    #[inline(always)]
    #[tactic(auto, using(crate::proofs::LeafLemmas::field_packed))]
    fn at(&self, place: usize) -> Option<Short> {
        match self.from.checked_add(place) {
            Some(number) => {
                if number < self.items.len() {
                    match self.items.at(number).number(self.field as usize) {
                        Some(n) => Some(Short::of_num(n)),
                        None => None,
                    }
                } else {
                    None
                }
            }
            None => None,
        }
    }
}

/// The numbers in a field of so many elements of a column from a place on, where it keeps structs of numbers and they are there.
fn field_of_structs(
    field: u32,
    column: &Column,
    from: usize,
    count: usize,
    alloc: Global,
) -> Option<Numbers>
    ensures { MayGive (λ place v. HasFieldThere field (slice_get (view_column column.now)
        (from + place)) v) result count }
{
    match column {
        Column::Structs(items) => {
            let of = FieldOfStructs { items, from, field };
            gather(alloc, count, &of)
        }
        _ => None,
    }
}

/// The elements of the leg of a place, where it and all the others have so many.
#[tactic(auto, using(crate::proofs::LeafLemmas::leg_given))]
fn field_of_legs(
    field: u32,
    legs: &Legs,
    from: usize,
    count: usize,
    alloc: Global,
) -> Option<Numbers>
    requires { 0 < length (lists_of legs.now) }
    ensures { MayGiveLeg (lists_of legs.now) field from result count }
{
    if !are_there(legs, from, count) {
        return None;
    }
    match column_at(legs, field) {
        Some(column) => elements_of(column, from, count, alloc),
        None => None,
    }
}

/// Whether there are so many rows from one on. It takes no memory.
fn are_there(legs: &Legs, from: usize, count: usize) -> bool
    requires { 0 < length (lists_of legs.now) }
    ensures { result ≡ true → from + count ≤ length (rows_in (lists_of legs.now)) }
{
    match count_rows(legs) {
        Ok(total) => from <= total && count <= total - from,
        Err(_) => false,
    }
}
