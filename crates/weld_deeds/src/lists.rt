//! Vectors of numbers that are merged, one for each row of a block.

ghost use Rattle.std.specs.Prelude.{◌≡◌, ◌<◌, ◌++◌, true, map, Some, IfOk, OnOk};
ghost use Rattle.weld_data.specs.Kind.{IsNarrow, InRange};
ghost use Rattle.weld_data.specs.declared.kind.Kind.TheVariants as kinds;
ghost use Rattle.weld_data.specs.Value.{number};
ghost use Rattle.weld_data.specs.View.{view_val};
ghost use Rattle.weld_builders.specs.Outcome.{done};
ghost use Rattle.weld_meaning.specs.Evaluation.{merged};
ghost use Rattle.weld_meaning.specs.Thing.{plain};
ghost use Rattle.weld_pieces.specs.Items.{items_of_list, kind_of_items};
ghost use Rattle.weld_acts.specs.Act.{Acts};
ghost use Rattle.weld_eval.specs.ThingView.{thing_of};
ghost use Rattle.weld_blocks.specs.Numbers.{count_of, number_at};
ghost use Rattle.weld_blocks.specs.Scope.{scope_env};
ghost use Rattle.weld_blocks.specs.Structs.{AreLonger};
ghost use Rattle.weld_deeds.specs.Does.{list_done, I64ListFits};
ghost use Rattle.weld_deeds.specs.Lists.{list_at, AreAlike, MayBeFields, MayBeLists};
ghost use Rattle.weld_deeds.specs.Puts.{IsPut};

use crate::puts::{empty_with_room, put_value, value_at};
use std::alloc::{AllocError, Global};
use weld_blocks::columns::numbers;
use weld_blocks::numbers::{Numbers, word_at};
use weld_blocks::scope::Scope;
use weld_data::{Column, Items, Kind, Stop, Val, Vals};
use weld_eval::thing::Owned;
use weld_pieces::ListPart;
use weld_tree::{Expr, Exprs, Form, ManyForm};

/// The numbers of each item of the vectors that an expression comes to on so many rows, where it is written item by item.
#[tactic(auto, using(crate::proofs::ListLemmas::vectors_given))]
pub(crate) fn lists_of(
    item: &Expr,
    scope: &Scope,
    count: usize,
    alloc: Global,
) -> Option<Vec<Numbers>>
    ensures { MayBeLists item.now (scope_env scope.now) result count }
{
    match &item.form {
        Form::Many(ManyForm::Vec, parts) => items_of(parts, scope, count, alloc),
        _ => None,
    }
}

/// The numbers of each item.
fn items_of(parts: &Exprs, scope: &Scope, count: usize, alloc: Global) -> Option<Vec<Numbers>>
    ensures { MayBeFields parts.now (scope_env scope.now) result count }
{
    let mut columns = Vec::new(alloc);
    for place in 0..parts.len() {
        let column = match numbers(&parts.as_slice()[place], scope, count, alloc) {
            Some(column) => column,
            None => return None,
        };
        match columns.push(column) {
            Ok(()) => {}
            Err(_) => return None,
        }
    }
    Some(columns)
}

/// Whether all columns are of a kind.
pub(crate) fn are_alike(kind: Kind, columns: &[Numbers]) -> bool
    ensures { result ≡ true → AreAlike kind columns.now }
{
    match columns.split_first() {
        None => true,
        Some((first, rest)) => first.kind == kind && are_alike(kind, rest),
    }
}

/// Merges the vector of the numbers at a place, from 0.
#[tactic(auto, using(crate::proofs::PutLemmas::same_put, crate::proofs::PutLemmas::same_acts))]
pub(crate) fn put_list(
    columns: &Vec<Numbers>,
    place: usize,
    builder: &mut Owned,
) -> Result<(), Stop>
    requires long { AreLonger columns.now.items place }
    requires put { IsPut (thing_of builder.old) (list_at columns.now.items place) }
    ensures { Acts result (merged (thing_of builder.old)
        (done (plain (list_at columns.now.items place)))) (thing_of builder.new) }
{
    match list_of_row(columns, place, *columns.allocator()) {
        Ok(item) => put_value(builder, item),
        Err(_) => Err(Stop::Memory),
    }
}

/// The vector of the numbers at a place: in the width of their kind where they are of one whose numbers lie within an i64.
fn list_of_row(columns: &[Numbers], place: usize, alloc: Global) -> Result<Val, AllocError>
    requires { AreLonger columns.now place }
    ensures { IfOk result (λ v. list_at columns.now place ≡ view_val v) }
{
    match columns.first() {
        Some(first) => {
            let kind = first.kind;
            if !kind.is_narrow() || !are_alike(kind, columns) {
                return values_row(columns, place, alloc);
            }
            match kind {
                Kind::I64 => i64_list(columns, place, alloc),
                _ => typed_row(kind, columns, place, alloc),
            }
        }
        None => values_row(columns, place, alloc),
    }
}

/// Merges the vector of the numbers at a place, from 0, which all are of kind i64.
#[tactic(auto, using(crate::proofs::PutLemmas::same_put, crate::proofs::PutLemmas::same_acts))]
#[inline(always)]
pub(crate) fn put_i64_list(
    columns: &Vec<Numbers>,
    place: usize,
    builder: &mut Owned,
) -> Result<(), Stop>
    requires { I64ListFits columns.now.items place (thing_of builder.old) }
    ensures { Acts result (list_done columns.now.items place (thing_of builder.old))
        (thing_of builder.new) }
{
    match i64_list(columns, place, *columns.allocator()) {
        Ok(item) => put_value(builder, item),
        Err(_) => Err(Stop::Memory),
    }
}

/// The vector of numbers of kind i64, with room for these alone.
#[tactic(auto, using(weld_blocks::proofs::StructLemmas::longer_at))]
#[inline(always)]
fn i64_list(columns: &[Numbers], place: usize, alloc: Global) -> Result<Val, AllocError>
    requires alike { AreAlike kinds.I64 columns.now }
    requires long { AreLonger columns.now place }
    ensures { IfOk result (λ v. list_at columns.now place ≡ view_val v) }
{
    let mut words = Vec::with_capacity(alloc, columns.len())?;
    'columns: for i in 0..columns.len() {
        words.push_reserved(word_at(&columns[i].items, place));
    }
    Ok(Val::List(Column::I64(Items::from_vec(words))))
}

/// The vector of numbers of one kind.
#[tactic(auto, using(crate::proofs::ListLemmas::items_are))]
fn typed_row(
    kind: Kind,
    columns: &[Numbers],
    place: usize,
    alloc: Global,
) -> Result<Val, AllocError>
    requires narrow { IsNarrow kind }
    requires alike { AreAlike kind columns.now }
    requires long { AreLonger columns.now place }
    ensures { IfOk result (λ v. list_at columns.now place ≡ view_val v) }
{
    let mut list = ListPart::empty(alloc, Some(kind));
    list.reserve(columns.len() as u64)?;
    push_row(kind, columns, place, &mut list)?;
    Ok(Val::List(list.into_column()))
}

/// The vector of any numbers.
#[tactic(auto, using(crate::proofs::ListLemmas::values_are))]
fn values_row(columns: &[Numbers], place: usize, alloc: Global) -> Result<Val, AllocError>
    requires { AreLonger columns.now place }
    ensures { IfOk result (λ v. list_at columns.now place ≡ view_val v) }
{
    let mut values = empty_with_room(alloc, columns.len())?;
    push_values(columns, place, &mut values)?;
    Ok(Val::List(Column::Nest(values)))
}

/// Appends the numbers at a place as values.
fn push_values(columns: &[Numbers], place: usize, values: &mut Vals) -> Result<(), AllocError>
    requires { AreLonger columns.now place }
    ensures { OnOk result (values.new ≡ values.old ++ map (λ c. number_at c place) columns.now) }
{
    match columns.split_first() {
        None => Ok(()),
        Some((first, rest)) => {
            values.push(value_at(first, place))?;
            push_values(rest, place, values)
        }
    }
}

/// Appends the numbers at a place.
fn push_row(
    kind: Kind,
    columns: &[Numbers],
    place: usize,
    list: &mut ListPart,
) -> Result<(), AllocError>
    requires narrow { IsNarrow kind }
    requires alike { AreAlike kind columns.now }
    requires long { AreLonger columns.now place }
    requires kind { kind_of_items list.old ≡ Some kind }
    ensures { OnOk result (items_of_list list.new ≡ items_of_list list.old
        ++ map (λ c. number_at c place) columns.now) }
{
    match columns.split_first() {
        None => Ok(()),
        Some((first, rest)) => {
            list.push_number(kind, word_in(kind, first, place))?;
            push_row(kind, rest, place, list)
        }
    }
}

/// The word of the number at a place.
#[tactic(auto, using(crate::proofs::ListLemmas::word_there, crate::proofs::ListLemmas::word_within))]
#[inline(always)]
fn word_in(kind: Kind, column: &Numbers, place: usize) -> i64
    requires narrow { IsNarrow kind }
    requires kind { column.now.kind ≡ kind }
    requires place { place < count_of column.now }
    ensures in_range { InRange kind result }
    ensures is { number kind result ≡ number_at column.now place }
{
    word_at(&column.items, place)
}
