//! The legs of a loop and its rows.

ghost use Rattle.std.specs.Prelude.{◌≡◌, ◌<◌, length as length_of, slice_get, Some, IfOk};
ghost use Rattle.weld_data.specs.View.{view_val, view_column};
ghost use Rattle.weld_builders.specs.Outcome.{done, and_then};
ghost use Rattle.weld_meaning.specs.Evaluation.{elements_of};
ghost use Rattle.weld_meaning.specs.Thing.{as_value};
ghost use Rattle.weld_eval.specs.Answers.{Answers};
ghost use Rattle.weld_eval.specs.ThingView.{held_of};
ghost use Rattle.weld_eval_forms.specs.Legs.{elements_in, leg_lists, IsVector, AreVectors, IsPlace, strided_elements, rows_in, RowsAnswer, all_long, AllReach, elements_at};

use crate::release::let_go;
use std::alloc::{AllocError, Global};
use weld_data::{Column, Stop, Val, Vals};
use weld_eval::thing::{Held, Owned, value_of};
use weld_eval::values::strided_part;

/// A leg that runs over a whole vector. It takes no memory.
pub fn whole<'a>(v: Held<'a>) -> Held<'a>
    requires { IsVector (held_of v) }
    ensures elements { and_then (as_value (held_of v.entry)) elements_of
        ≡ done (elements_in result) }
    ensures vector { IsVector (held_of result) }
{
    v
}

/// A leg that runs over the elements of a vector from a start below an end by a stride. It faults where
/// the start isn't between 0 and the end, the end isn't within the vector, the stride isn't at least 1,
/// or it doesn't divide the way.
#[tactic(auto, using(crate::proofs::Rows::listed))]
pub fn strided<'a>(
    v: Held<'a>,
    start: Held<'a>,
    end: Held<'a>,
    stride: Held<'a>,
    alloc: Global,
) -> Result<Held<'a>, Stop>
    requires vector { IsVector (held_of v) }
    requires start { IsPlace (held_of start) }
    requires end { IsPlace (held_of end) }
    requires stride { IsPlace (held_of stride) }
    ensures elements { Answers elements_in result (strided_elements (held_of v.entry)
        (held_of start.entry) (held_of end.entry) (held_of stride.entry)) }
    ensures vector { IfOk result (λ x. IsVector (held_of x)) }
{
    let column = strided_column(&v, &start, &end, &stride, alloc);
    let_go(v);
    let_go(start);
    let_go(end);
    let_go(stride);
    match column {
        Ok(column) => Ok(Held::Made(Owned::Value(Val::List(column)))),
        Err(stop) => Err(stop),
    }
}

/// The elements of such a leg.
fn strided_column(
    v: &Held,
    start: &Held,
    end: &Held,
    stride: &Held,
    alloc: Global,
) -> Result<Column, Stop>
    requires vector { IsVector (held_of v.now) }
    requires start { IsPlace (held_of start.now) }
    requires end { IsPlace (held_of end.now) }
    requires stride { IsPlace (held_of stride.now) }
    ensures { Answers view_column result (strided_elements (held_of v.now) (held_of start.now)
        (held_of end.now) (held_of stride.now)) }
{
    strided_part(
        alloc,
        value_of(v),
        value_of(start),
        value_of(end),
        value_of(stride),
    )
}

/// How many rows there are, of one leg at least: as many as each leg has elements. It faults where the
/// legs aren't of one length. It takes no memory.
#[tactic(auto, using(crate::proofs::Rows::vector_at, crate::proofs::Rows::counted, crate::proofs::Rows::uncounted))]
pub fn count_rows(legs: &[Held]) -> Result<usize, Stop>
    requires some { 0 < length_of legs.now }
    requires vectors { AreVectors legs.now }
    ensures { RowsAnswer result (leg_lists legs.now) }
{
    let count = length_of_leg(&legs[0]);
    if are_long(legs, count) {
        Ok(count)
    } else {
        Err(Stop::Fault)
    }
}

/// Whether each leg has so many elements.
#[tactic(auto, using(crate::proofs::Rows::vector_at, crate::proofs::Rows::long_one, crate::proofs::Rows::other_length, crate::proofs::Rows::none_left))]
fn are_long(legs: &[Held], count: usize) -> bool
    requires { AreVectors legs.now }
    ensures { result ≡ all_long count (leg_lists legs.now) }
{
    for place in 0..legs.len() {
        if length_of_leg(&legs[place]) != count {
            return false;
        }
    }
    true
}

/// The number of a leg's elements.
#[tactic(auto, using(crate::proofs::Rows::listed_length))]
fn length_of_leg(leg: &Held) -> usize
    requires { IsVector (held_of leg.now) }
    ensures { result ≡ length_of (elements_in leg.now) }
{
    match value_of(leg) {
        Val::List(column) => column.len(),
        _ => unreachable!(),
    }
}

/// A copy of a leg's element of that number, from 0.
#[tactic(auto, using(crate::proofs::Rows::listed_length, crate::proofs::Rows::listed_at))]
fn element_in(alloc: Global, leg: &Held, number: usize) -> Result<Val, AllocError>
    requires vector { IsVector (held_of leg.now) }
    requires within { number < length_of (elements_in leg.now) }
    ensures { IfOk result (λ v. slice_get (elements_in leg.now) number ≡ Some (view_val v)) }
{
    match value_of(leg) {
        Val::List(column) => column.copy_at(alloc, number),
        _ => unreachable!(),
    }
}

/// The row of a number, from 0: the element of the one leg, or the struct of the elements of more.
#[tactic(auto, using(crate::proofs::Rows::vector_at, crate::proofs::Rows::one_leg_reaches, crate::proofs::Rows::one_leg_row, crate::proofs::Rows::more_legs_row))]
pub fn row_at(alloc: Global, legs: &[Held], number: usize) -> Result<Val, AllocError>
    requires vectors { AreVectors legs.now }
    requires there { number < length_of (rows_in (leg_lists legs.now)) }
    ensures { IfOk result (λ v. slice_get (rows_in (leg_lists legs.now)) number
        ≡ Some (view_val v)) }
{
    if legs.len() == 1 {
        element_in(alloc, &legs[0], number)
    } else {
        Ok(Val::Struct(fields_at(alloc, legs, number)?))
    }
}

/// The legs' elements of a number, from 0.
#[tactic(auto, using(crate::proofs::Rows::vector_at, crate::proofs::Rows::one_field_more, crate::proofs::Rows::no_field_more))]
fn fields_at(alloc: Global, legs: &[Held], number: usize) -> Result<Vals, AllocError>
    requires vectors { AreVectors legs.now }
    requires reach { AllReach number (leg_lists legs.now) }
    ensures { IfOk result (λ fields. fields ≡ elements_at number (leg_lists legs.now)) }
{
    let mut fields = Vals::new(alloc);
    for place in 0..legs.len() {
        let field = element_in(alloc, &legs[place], number)?;
        fields.push(field)?;
    }
    Ok(fields)
}
