//! Elements kept where their marks are true.

ghost use Rattle.std.specs.Prelude.{◌≡◌, length, IfOk};
ghost use Rattle.weld_data.specs.View.{view_val, view_column};
ghost use Rattle.weld_tree.specs.TypeTree.{vec};
ghost use Rattle.weld_tree.specs.HasValue.{HasValue};
ghost use Rattle.weld_builders.specs.Outcome.{done, map_out};
ghost use Rattle.weld_calls.specs.CallTypes.{truth_type};
ghost use Rattle.weld_calls.specs.Lists.{items, truths, vector, paired, marked};
ghost use Rattle.weld_eager.specs.Reading.{IsFaultOr, IsKeptVector, AreKept};

use crate::read::truths_of;
use std::alloc::{AllocError, Global};
use weld_data::{Column, Kind, Val};
use weld_pieces::ListPart;

/// The elements where the second vector is true; none where there are more of one than of the other. The
/// kind is that of the elements, where they are numbers.
#[tactic(auto, using(crate::proofs::Keeping::kept_answer, crate::proofs::Keeping::kept_fault))]
pub fn filter(
    alloc: Global,
    kind: Option<Kind>,
    c: &Val,
    m: &Val,
) -> Result<Option<Val>, AllocError>
    requires elements { IsKeptVector kind (view_val c.now) }
    requires marks { HasValue (vec truth_type) (view_val m.now) }
    ensures { IfOk result (λ r. IsFaultOr r view_val (map_out (λ ps. vector (marked ps))
        (paired (items (view_val c.now)) (truths (view_val m.now))))) }
{
    let marks = truths_of(alloc, m)?;
    match c {
        Val::List(column) => match kept_column(alloc, kind, column, &marks)? {
            Some(kept) => Ok(Some(Val::List(kept))),
            None => Ok(None),
        },
        _ => unreachable!(),
    }
}

/// The same of a column.
#[tactic(auto, using(crate::proofs::Keeping::marks_apart))]
fn kept_column(
    alloc: Global,
    kind: Option<Kind>,
    column: &Column,
    marks: &[bool],
) -> Result<Option<Column>, AllocError>
    requires { AreKept kind (view_column column.now) }
    ensures { IfOk result (λ r. IsFaultOr r view_column (map_out marked
        (paired (view_column column.now) marks.now))) }
{
    if column.len() != marks.len() {
        return Ok(None);
    }
    Ok(Some(kept_elements(alloc, kind, column, marks)?))
}

/// The same where there are as many of both.
fn kept_elements(
    alloc: Global,
    kind: Option<Kind>,
    column: &Column,
    marks: &[bool],
) -> Result<Column, AllocError>
    requires kept { AreKept kind (view_column column.now) }
    requires count { length (view_column column.now) ≡ length marks.now }
    ensures { IfOk result (λ r. map_out marked (paired (view_column column.now) marks.now)
        ≡ done (view_column r)) }
{
    let _count = column.len();
    let mut list = ListPart::empty(alloc, kind);
    for place in 0..marks.len() {
        if !marks[place] {
            continue;
        }
        list.push(column.copy_at(alloc, place)?)?;
    }
    Ok(list.into_column())
}
