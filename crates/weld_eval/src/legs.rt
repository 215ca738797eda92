//! The legs of a loop.

ghost use Rattle.std.specs.Prelude.{◌≡◌, ◌<◌, ◌++◌, length as length_of, slice_get, Some, IsTrue, IfOk, OnOk};
ghost use Rattle.weld_data.specs.View.{view_val, view_column};
ghost use Rattle.weld_builders.specs.Outcome.{done};
ghost use Rattle.weld_meaning.specs.Thing.{value_field};
ghost use Rattle.weld_eval.specs.Elements.{view_element};
ghost use Rattle.weld_eval.specs.Fits.{HasField};
ghost use Rattle.weld_eval.specs.LegsView.{lists_of};
ghost use Rattle.weld_eval.specs.NumberAnswers.{NumberAnswer, FieldNumber, PairAnswer};
ghost use Rattle.weld_eval.specs.RowLists.{RowsAnswer, all_long, all_reach, has_row, is_one, row_in, elements_at};

use crate::number::{number_at, number_of, pair_of, pair_of_packed};
use crate::short::Short;
use crate::values::{Element, element_of, field_of, field_of_packed};
use std::alloc::{AllocError, Global};
use weld_data::{Column, Stop, Val, Vals};

/// The vectors that a loop runs over, lent where they stand.
#[derive(Clone, Copy)]
pub enum Legs<'a> {
    End,
    And(&'a Column, &'a Legs<'a>),
}

/// How many rows there are, of one leg at least: as many as each leg has elements. It faults where the
/// legs aren't of one length. It takes no memory.
#[tactic(auto, using(crate::proofs::LegLists::counted, crate::proofs::LegLists::uncounted))]
pub fn count_rows(legs: &Legs) -> Result<usize, Stop>
    requires { 0 < length_of (lists_of legs.now) }
    ensures { RowsAnswer result (lists_of legs.now) }
{
    match legs {
        Legs::And(column, rest) => {
            let count = column.len();
            if are_long(rest, count) {
                Ok(count)
            } else {
                Err(Stop::Fault)
            }
        }
        Legs::End => unreachable!(),
    }
}

/// Whether each leg has so many elements.
fn are_long(legs: &Legs, count: usize) -> bool
    ensures { result ≡ all_long count (lists_of legs.now) }
{
    match legs {
        Legs::And(column, rest) => column.len() == count && are_long(rest, count),
        Legs::End => true,
    }
}

/// Whether there is one leg alone. It takes no memory.
#[inline(always)]
pub(crate) fn is_one_leg(legs: &Legs) -> bool
    ensures { result ≡ is_one (lists_of legs.now) }
{
    match legs {
        Legs::And(_, rest) => match rest {
            Legs::End => true,
            Legs::And(_, _) => false,
        },
        Legs::End => false,
    }
}

/// The element of a number in the one leg. It takes no memory.
#[inline]
#[tactic(auto, using(crate::proofs::LegLists::element_is))]
pub(crate) fn element_in<'a>(legs: &'a Legs<'a>, number: usize) -> Element<'a>
    requires one { IsTrue (is_one (lists_of legs.now)) }
    requires there { IsTrue (has_row number (lists_of legs.now)) }
    ensures { row_in (lists_of legs.now) number ≡ view_element result }
{
    match legs {
        Legs::And(column, _) => element_of(column, number),
        Legs::End => unreachable!(),
    }
}

/// The leg of that place, from 0. It takes no memory.
#[tactic(auto, using(crate::proofs::LegLists::later_leg))]
fn leg_at<'a>(legs: &'a Legs<'a>, place: u32) -> &'a Column
    requires { place < length_of (lists_of legs.now) }
    ensures { slice_get (lists_of legs.now) place ≡ Some (view_column result.now) }
{
    match legs {
        Legs::And(column, rest) => {
            if place == 0 {
                column
            } else {
                leg_at(rest, place - 1)
            }
        }
        Legs::End => unreachable!(),
    }
}

/// A field of the row of a number. It takes no memory.
#[inline]
#[tactic(auto, using(crate::proofs::RowLists::field_within, crate::proofs::RowLists::legs_reach, crate::proofs::RowLists::field_value))]
pub(crate) fn field_in<'a>(legs: &'a Legs<'a>, number: usize, field: u32) -> Element<'a>
    requires there { IsTrue (has_row number (lists_of legs.now)) }
    requires field { HasField field (row_in (lists_of legs.now) number) }
    ensures { value_field field (row_in (lists_of legs.now) number) ≡ done (view_element result) }
{
    if is_one_leg(legs) {
        match element_in(legs, number) {
            Element::Lent(v) => Element::Lent(field_of(v, field)),
            Element::Number(_) => unreachable!(),
            Element::Packed(row) => Element::Number(field_of_packed(row, field)),
        }
    } else {
        element_of(leg_at(legs, field), number)
    }
}

/// The row of a number where it is a number. It takes no memory.
#[inline(always)]
#[tactic(auto, using(crate::proofs::LegLists::last_number))]
pub(crate) fn number_in_legs(legs: &Legs, number: usize) -> Option<Short>
    requires { IsTrue (has_row number (lists_of legs.now)) }
    ensures { NumberAnswer result (row_in (lists_of legs.now) number) }
{
    match legs {
        Legs::And(column, rest) => match rest {
            Legs::End => number_at(column, number),
            Legs::And(_, _) => None,
        },
        Legs::End => unreachable!(),
    }
}

/// A field of the row of a number, where it is a number. It takes no memory.
#[inline(always)]
#[tactic(auto, using(crate::proofs::RowLists::field_within, crate::proofs::RowLists::legs_reach, crate::proofs::RowLists::field_number))]
pub(crate) fn number_field_in(legs: &Legs, number: usize, field: u32) -> Option<Short>
    requires there { IsTrue (has_row number (lists_of legs.now)) }
    requires field { HasField field (row_in (lists_of legs.now) number) }
    ensures { FieldNumber result (value_field field (row_in (lists_of legs.now) number)) }
{
    if is_one_leg(legs) {
        match element_in(legs, number) {
            Element::Lent(v) => number_of(field_of(v, field)),
            Element::Number(_) => unreachable!(),
            Element::Packed(row) => Some(Short::of_num(field_of_packed(row, field))),
        }
    } else {
        number_at(leg_at(legs, field), number)
    }
}

/// The two numbers of which the row of a number is a struct, where they are looked for. It takes no memory.
#[inline(always)]
#[tactic(auto, using(crate::proofs::Pairs::legs_are, crate::proofs::Pairs::second_reaches))]
fn pair_in_columns(legs: &Legs, number: usize) -> Option<(Short, Short)>
    requires { IsTrue (has_row number (lists_of legs.now)) }
    ensures { PairAnswer result (row_in (lists_of legs.now) number) }
{
    match legs {
        Legs::And(first, rest) => match rest {
            Legs::And(second, more) => match more {
                Legs::End => match number_at(first, number) {
                    Some(x) => match number_at(second, number) {
                        Some(y) => Some((x, y)),
                        None => None,
                    },
                    None => None,
                },
                Legs::And(_, _) => None,
            },
            Legs::End => None,
        },
        Legs::End => unreachable!(),
    }
}

/// The same of one leg, too. It takes no memory.
#[inline(always)]
pub(crate) fn pair_in_legs(legs: &Legs, number: usize) -> Option<(Short, Short)>
    requires { IsTrue (has_row number (lists_of legs.now)) }
    ensures { PairAnswer result (row_in (lists_of legs.now) number) }
{
    if is_one_leg(legs) {
        match element_in(legs, number) {
            Element::Lent(v) => pair_of(v),
            Element::Number(_) => None,
            Element::Packed(row) => pair_of_packed(row),
        }
    } else {
        pair_in_columns(legs, number)
    }
}

/// The row of a number, built.
#[tactic(auto, using(crate::proofs::LegLists::last_value))]
pub(crate) fn value_in(legs: &Legs, number: usize, alloc: Global) -> Result<Val, AllocError>
    requires { IsTrue (has_row number (lists_of legs.now)) }
    ensures { IfOk result (λ v. view_val v ≡ row_in (lists_of legs.now) number) }
{
    match legs {
        Legs::And(column, rest) => match rest {
            Legs::End => column.copy_at(alloc, number),
            Legs::And(_, _) => {
                let mut fields = Vals::new(alloc);
                push_elements(&mut fields, legs, number, alloc)?;
                Ok(Val::Struct(fields))
            }
        },
        Legs::End => unreachable!(),
    }
}

/// Appends the legs' elements of a number, copied.
fn push_elements(
    fields: &mut Vals,
    legs: &Legs,
    number: usize,
    alloc: Global,
) -> Result<(), AllocError>
    requires { IsTrue (all_reach number (lists_of legs.now)) }
    ensures { OnOk result (fields.new ≡ fields.old ++ elements_at number (lists_of legs.now)) }
{
    match legs {
        Legs::And(column, rest) => {
            let element = column.copy_at(alloc, number)?;
            fields.push(element)?;
            push_elements(fields, rest, number, alloc)
        }
        Legs::End => Ok(()),
    }
}
