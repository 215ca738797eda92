//! Elements by their places, and fields.

ghost use Rattle.std.specs.Prelude.{◌≡◌, List, IfOk, MatchOption};
ghost use Rattle.weld_data.specs.Value.{Value};
ghost use Rattle.weld_data.specs.declared.kind.Kind.TheVariants as kinds;
ghost use Rattle.weld_data.specs.View.{view_val, view_column};
ghost use Rattle.weld_tree.specs.TypeTree.{vec};
ghost use Rattle.weld_tree.specs.HasValue.{HasValue};
ghost use Rattle.weld_builders.specs.Outcome.{Outcome, done, map_out};
ghost use Rattle.weld_builders.specs.Range.{AllInRange};
ghost use Rattle.weld_meaning.specs.Thing.{value_field};
ghost use Rattle.weld_meaning.specs.Evaluation.{element_at};
ghost use Rattle.weld_calls.specs.CallTypes.{place_type};
ghost use Rattle.weld_pieces.specs.Answer.{IsOutside};
ghost use Rattle.weld_eval.specs.Answers.{Answers};
ghost use Rattle.weld_eval.specs.Fits.{HasField, IsList};
ghost use Rattle.weld_calls.specs.CallMeaning.{slice_meaning, take_meaning};
ghost use Rattle.weld_calls.specs.Lists.{items, numbers, vector, each};
ghost use Rattle.weld_eager.specs.Reading.{IsFaultOr, IsKeptVector, AreKept, IsPlaceAmong};

use crate::read::numbers_as;
use std::alloc::{AllocError, Global};
use weld_data::{Column, Kind, Stop, Val};
use weld_eval::values::{field_of, part_of};
use weld_pieces::ListPart;

/// So many elements of a vector from a place on. It faults where they aren't all there.
pub fn slice(alloc: Global, v: &Val, start: &Val, count: &Val) -> Result<Val, Stop>
    requires vector { IsList (view_val v.now) }
    requires start { HasValue place_type (view_val start.now) }
    requires count { HasValue place_type (view_val count.now) }
    ensures { Answers view_val result (slice_meaning (view_val v.now) (view_val start.now)
        (view_val count.now)) }
{
    part_of(alloc, v, start, count)
}

/// The field of a struct, from 0.
pub fn column(alloc: Global, table: &Val, field: u32) -> Result<Val, AllocError>
    requires { HasField field (view_val table.now) }
    ensures { IfOk result (λ r. value_field field (view_val table.now) ≡ done (view_val r)) }
{
    field_of(table, field).copy(alloc)
}

/// The elements at these places, from 0; none where one is no place of the vector. The kind is that of
/// the elements, where they are numbers.
pub fn take(
    alloc: Global,
    kind: Option<Kind>,
    v: &Val,
    places: &Val,
) -> Result<Option<Val>, AllocError>
    requires elements { IsKeptVector kind (view_val v.now) }
    requires places { HasValue (vec place_type) (view_val places.now) }
    ensures { IfOk result (λ r. IsFaultOr r view_val (take_meaning (view_val v.now)
        (view_val places.now))) }
{
    let wanted = numbers_as(alloc, Kind::I64, places)?;
    let column = column_of(v);
    let found = taken(alloc, kind, column, &wanted)?;
    Ok(listed(found))
}

/// The elements of a vector, lent. It takes no memory.
#[tactic(auto, using(crate::proofs::Columns::listed))]
pub fn column_of<'a>(v: &'a Val) -> &'a Column
    requires { IsList (view_val v.now) }
    ensures { items (view_val v.now) ≡ view_column result.now }
{
    match v {
        Val::List(column) => column,
        _ => unreachable!(),
    }
}

/// A column that may be there, as a vector. It takes no memory.
fn listed(found: Option<Column>) -> Option<Val>
    ensures { (o : Outcome (List Value)) → IsFaultOr found view_column o
        → IsFaultOr result view_val (map_out vector o) }
{
    match found {
        Some(column) => Some(Val::List(column)),
        None => None,
    }
}

/// The same of a column.
fn taken(
    alloc: Global,
    kind: Option<Kind>,
    column: &Column,
    places: &[i128],
) -> Result<Option<Column>, AllocError>
    requires kept { AreKept kind (view_column column.now) }
    requires places { AllInRange kinds.I64 places.now }
    ensures { IfOk result (λ r. IsFaultOr r view_column (each (element_at (view_column column.now))
        places.now)) }
{
    let count = column.len();
    let mut list = ListPart::empty(alloc, kind);
    for i in 0..places.len() {
        let Some(place) = place_of(places[i], count) else {
            return Ok(None);
        };
        list.push(column.copy_at(alloc, place)?)?;
    }
    Ok(Some(list.into_column()))
}

/// The place that a number is among so many; none where it is none.
pub(crate) fn place_of(x: i128, count: usize) -> Option<usize>
    ensures { MatchOption result (IsOutside x count) (λ place. IsPlaceAmong x place count) }
{
    if x < 0 || x >= count as i128 {
        return None;
    }
    Some(x as usize)
}
