//! The first items of texts as numbers, by which most texts are told apart without a look at their items.

ghost use Rattle.std.specs.Prelude.{◌≡◌, IsTrue, drop};
ghost use Rattle.weld_data.specs.View.{view_val};
ghost use Rattle.weld_data.specs.Order.{IsKey};
ghost use Rattle.weld_builders.specs.ValueOrder.{value_cmp};
ghost use Rattle.weld_sorted.specs.Start.{IsDigit, IsStart, IsText, HasStart};

use crate::compare::compare_values;
use std::cmp::Ordering;
use weld_data::{Column, Val};

/// The start of a value: of a list that is kept as numbers of kind i8, its first 16 items as the digits of one number. It
/// takes no memory.
pub fn start_of(value: &Val) -> u128
    ensures { HasStart value.now result }
{
    match value {
        Val::List(Column::I8(items)) => start_of_items(items.as_slice()),
        _ => 0,
    }
}

/// The first 16 items as the digits of one number.
#[tactic(auto, using(crate::proofs::Starting::leads_on, crate::proofs::Starting::stays_below, crate::proofs::Starting::fits, crate::proofs::Starting::all_digits))]
fn start_of_items(items: &[i8]) -> u128
    ensures { IsStart 16 0 items.now result }
{
    let mut start = 0;
    for place in 0..16 {
        start = start * 256 + digit_at(items, place);
    }
    start
}

/// The digit of an item, from 0; 0 where there is none.
fn digit_at(items: &[i8], place: usize) -> u128
    ensures { IsDigit (drop place items.now) result }
{
    if place < items.len() {
        (i128::from(items[place]) + 128) as u128
    } else {
        0
    }
}

/// Whether the value is a list that is kept as numbers of kind i8.
fn is_text(value: &Val) -> bool
    ensures { IsTrue result → IsText value.now }
{
    match value {
        Val::List(Column::I8(_)) => true,
        _ => false,
    }
}

/// How the first value stands to the second, whose starts these are, in the one total order of all values. Both may be keys.
/// It takes no memory.
#[tactic(auto, using(crate::proofs::Starting::starts_stand))]
pub fn compare_started(a: &Val, a_start: u128, b: &Val, b_start: u128) -> Ordering
    requires left { IsKey (view_val a.now) }
    requires right { IsKey (view_val b.now) }
    requires left_start { HasStart a.now a_start }
    requires right_start { HasStart b.now b_start }
    ensures { result ≡ value_cmp (view_val a.now) (view_val b.now) }
{
    if a_start != b_start && is_text(a) && is_text(b) {
        return a_start.cmp(&b_start);
    }
    compare_values(a, b)
}
