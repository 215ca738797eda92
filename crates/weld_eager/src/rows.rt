//! The dot of each row with a vector.

ghost use Rattle.std.specs.Prelude.{length, IfOk, IfSome};
ghost use Rattle.weld_data.specs.Kind.{IsInteger, InRange};
ghost use Rattle.weld_data.specs.Value.{values};
ghost use Rattle.weld_data.specs.View.{view_val, view_column};
ghost use Rattle.weld_tree.specs.TypeTree.{scalar, vec};
ghost use Rattle.weld_tree.specs.HasValue.{HasValue, AllAre};
ghost use Rattle.weld_builders.specs.Range.{AllInRange};
ghost use Rattle.weld_eval.specs.Elements.{view_element};
ghost use Rattle.weld_calls.specs.Lists.{numbers, each, dot as dot_list};
ghost use Rattle.weld_calls.specs.CallMeaning.{rows_dot_meaning};
ghost use Rattle.weld_eager.specs.Reading.{IsFaultOr};

use crate::calls::dot_of;
use crate::make::vector_of;
use crate::places::column_of;
use crate::read::numbers_as;
use std::alloc::{AllocError, Global};
use weld_data::{Column, Kind, Val};
use weld_eval::values::{Element, element_of};

/// The dot of each row with a vector; none where a row has another length than the vector.
#[tactic(auto, using(crate::proofs::DotRows::rows_answer, crate::proofs::DotRows::rows_fault))]
pub fn rows_dot(alloc: Global, kind: Kind, m: &Val, w: &Val) -> Result<Option<Val>, AllocError>
    requires integer { IsInteger kind }
    requires rows { HasValue (vec (vec (scalar kind))) (view_val m.now) }
    requires vector { HasValue (vec (scalar kind)) (view_val w.now) }
    ensures { IfOk result (λ r. IsFaultOr r view_val (rows_dot_meaning kind (view_val m.now)
        (view_val w.now))) }
{
    let weights = numbers_as(alloc, kind, w)?;
    let rows = column_of(m);
    let Some(zs) = dots(alloc, kind, rows, &weights)? else {
        return Ok(None);
    };
    Ok(Some(vector_of(alloc, kind, &zs)?))
}

/// The same of plain numbers.
fn dots(
    alloc: Global,
    kind: Kind,
    rows: &Column,
    weights: &[i128],
) -> Result<Option<Vec<i128>>, AllocError>
    requires integer { IsInteger kind }
    requires rows { AllAre (HasValue (vec (scalar kind))) (values (view_column rows.now)) }
    requires weights { AllInRange kind weights.now }
    ensures answer { IfOk result (λ r. IsFaultOr r (λ v. v.items)
        (each (λ row. dot_list kind (numbers row) weights.now) (view_column rows.now))) }
    ensures in_range { IfOk result (λ r. IfSome r (λ v. AllInRange kind v.items)) }
{
    let count = rows.len();
    let mut zs = Vec::new(alloc);
    for i in 0..count {
        let Some(z) = element_dot(alloc, kind, element_of(rows, i), weights)? else {
            return Ok(None);
        };
        zs.push(z)?;
    }
    Ok(Some(zs))
}

/// The dot of one row, which is lent.
fn element_dot(
    alloc: Global,
    kind: Kind,
    row: Element,
    weights: &[i128],
) -> Result<Option<i128>, AllocError>
    requires integer { IsInteger kind }
    requires row { HasValue (vec (scalar kind)) (view_element row) }
    requires weights { AllInRange kind weights.now }
    ensures value { IfOk result (λ r. IsFaultOr r (λ x. x)
        (dot_list kind (numbers (view_element row.entry)) weights.now)) }
    ensures in_range { IfOk result (λ r. IfSome r (InRange kind)) }
{
    match row {
        Element::Lent(row) => row_dot(alloc, kind, row, weights),
        Element::Number(_) => unreachable!(),
        Element::Packed(row) => {
            row.list.holds_struct(row.place);
            unreachable!()
        }
    }
}

/// The dot of one row.
#[tactic(auto, using(crate::proofs::DotRows::dot_as))]
fn row_dot(
    alloc: Global,
    kind: Kind,
    row: &Val,
    weights: &[i128],
) -> Result<Option<i128>, AllocError>
    requires integer { IsInteger kind }
    requires row { HasValue (vec (scalar kind)) (view_val row.now) }
    requires weights { AllInRange kind weights.now }
    ensures value { IfOk result (λ r. IsFaultOr r (λ x. x)
        (dot_list kind (numbers (view_val row.now)) weights.now)) }
    ensures in_range { IfOk result (λ r. IfSome r (InRange kind)) }
{
    let xs = numbers_as(alloc, kind, row)?;
    match dot_of(alloc, kind, &xs, weights)? {
        Some(number) => Ok(Some(number.value)),
        None => Ok(None),
    }
}
