//! How often places stand in a vector.

ghost use Rattle.std.specs.Prelude.{IfOk, IfSome};
ghost use Rattle.weld_data.specs.declared.kind.Kind.TheVariants as kinds;
ghost use Rattle.weld_data.specs.View.{view_val};
ghost use Rattle.weld_tree.specs.TypeTree.{vec};
ghost use Rattle.weld_tree.specs.HasValue.{HasValue};
ghost use Rattle.weld_builders.specs.Range.{AllInRange};
ghost use Rattle.weld_calls.specs.CallTypes.{place_type};
ghost use Rattle.weld_calls.specs.Lists.{numbers, number_vector};
ghost use Rattle.weld_calls.specs.CallMeaning.{histogram_meaning};
ghost use Rattle.weld_eager.specs.Reading.{IsFaultOr};

use crate::make::vector_of;
use crate::places::place_of;
use crate::read::numbers_as;
use std::alloc::{AllocError, Global};
use weld_data::{Kind, MergeOp, Val, combine};

/// Each number of the second vector and how often its place, from 0, stands in the first, wrapped; none
/// where the first has one that is no place of the second.
#[tactic(auto, using(crate::proofs::Tallying::tallied_answer, crate::proofs::Tallying::tallied_none))]
pub fn histogram(alloc: Global, v: &Val, starts: &Val) -> Result<Option<Val>, AllocError>
    requires places { HasValue (vec place_type) (view_val v.now) }
    requires starts { HasValue (vec place_type) (view_val starts.now) }
    ensures { IfOk result (λ r. IsFaultOr r view_val (histogram_meaning (numbers (view_val v.now))
        (numbers (view_val starts.now)))) }
{
    let places = numbers_as(alloc, Kind::I64, v)?;
    let numbers = numbers_as(alloc, Kind::I64, starts)?;
    match tally(&places, numbers) {
        Some(cells) => Ok(Some(vector_of(alloc, Kind::I64, &cells)?)),
        None => Ok(None),
    }
}

/// The same of plain numbers. It takes no memory.
fn tally(places: &[i128], starts: Vec<i128>) -> Option<Vec<i128>>
    requires places { AllInRange kinds.I64 places.now }
    requires starts { AllInRange kinds.I64 starts.items }
    ensures answer { IsFaultOr result (λ c. number_vector kinds.I64 c.items)
        (histogram_meaning places.now starts.items) }
    ensures in_range { IfSome result (λ c. AllInRange kinds.I64 c.items) }
{
    let mut cells = starts;
    for x in places {
        let Some(place) = place_of(*x, cells.len()) else {
            return None;
        };
        cells[place] = combine(MergeOp::Add, Kind::I64, cells[place], 1);
    }
    Some(cells)
}
