//! Structs of two fields that are merged: a number at an index or at a key, an item of a list or of a group.

ghost use Rattle.std.specs.Prelude.{◌≡◌, length, zip};
ghost use Rattle.weld_data.specs.Kind.{IsNarrow, InRange};
ghost use Rattle.weld_data.specs.Value.{number};
ghost use Rattle.weld_data.specs.View.{view_val};
ghost use Rattle.weld_builders.specs.Part.{merge_part};
ghost use Rattle.weld_builders.specs.Range.{AllInRange};
ghost use Rattle.weld_built.specs.Merges.{merge_all, TakesPairs};
ghost use Rattle.weld_built.specs.Logged.{IsItemOf};
ghost use Rattle.weld_built.specs.Pair.{pair, number_pairs};
ghost use Rattle.weld_built.specs.State.{MergeAnswer, part_of_state, IsState};

use crate::built::State;
use crate::cells::{merge_cell, merge_cells};
use crate::fitting::number_of;
use crate::groups::push_item;
use crate::keyed::{merge_number, merge_numbers, merge_value};
use crate::list;
use crate::rows::{push_pairs, push_two, side_by_side};
use crate::totals::merge_two;
use weld_data::{Kind, Stop, Val};
use weld_pieces::fields::as_number;

/// Merges a struct of two numbers.
#[inline(always)]
pub(crate) fn pair_into(
    state: &mut State,
    key_kind: Kind,
    key: i64,
    kind: Kind,
    x: i64,
) -> Result<(), Stop>
    requires state { IsState state.old }
    requires key { InRange key_kind key }
    requires number { InRange kind x }
    requires item { IsItemOf (part_of_state state.old) (pair (number key_kind key)
        (number kind x)) }
    ensures answer { MergeAnswer result (merge_part (part_of_state state.old)
        (pair (number key_kind key) (number kind x))) (part_of_state state.new) }
    ensures state { IsState state.new }
{
    match state {
        State::Cells(cells) => return merge_cell(cells, key, i128::from(x)),
        State::Keyed(alloc, part) => match merge_number(
            *alloc,
            part,
            key_kind,
            key,
            i128::from(x),
        ) {
            Ok(()) => return Ok(()),
            Err(_) => return Err(Stop::Memory),
        },
        State::List(alloc, items) => match push_two(*alloc, items, key_kind, key, kind, x) {
            Ok(()) => return Ok(()),
            Err(_) => return Err(Stop::Memory),
        },
        _ => return values_into(state, number_of(key_kind, key), number_of(kind, x)),
    }
}

/// Merges a struct of two values.
pub(crate) fn values_into(state: &mut State, first: Val, second: Val) -> Result<(), Stop>
    requires state { IsState state.old }
    requires item { IsItemOf (part_of_state state.old) (pair (view_val first) (view_val second)) }
    ensures answer { MergeAnswer result (merge_part (part_of_state state.old)
        (pair (view_val first) (view_val second))) (part_of_state state.new) }
    ensures state { IsState state.new }
{
    match state {
        State::Total(_) => unreachable!(),
        State::Totals(_, totals) => {
            merge_two(totals, first, second);
            return Ok(());
        }
        State::List(alloc, items) => match list::push_pair(*alloc, items, first, second) {
            Ok(()) => return Ok(()),
            Err(_) => return Err(Stop::Memory),
        },
        State::Cells(cells) => {
            let index = as_number(first);
            let number = as_number(second);
            return merge_cell(cells, index.value as i64, number.value);
        }
        State::Keyed(alloc, part) => {
            let number = as_number(second);
            match merge_value(*alloc, part, first, number.value) {
                Ok(()) => return Ok(()),
                Err(_) => return Err(Stop::Memory),
            }
        }
        State::Groups(alloc, part) => match push_item(*alloc, part, first, second) {
            Ok(()) => return Ok(()),
            Err(_) => return Err(Stop::Memory),
        },
    }
}

/// Merges structs of two numbers, the first one first.
#[tactic(auto, using(crate::proofs::ManyLemmas::merged_list))]
pub(crate) fn pairs_into(
    state: &mut State,
    key_kind: Kind,
    keys: &[i64],
    kind: Kind,
    numbers: &[i64],
) -> Result<(), Stop>
    requires state { IsState state.old }
    requires narrow_key { IsNarrow key_kind }
    requires keys { AllInRange key_kind keys.now }
    requires narrow { IsNarrow kind }
    requires numbers { AllInRange kind numbers.now }
    requires count { length keys.now ≡ length numbers.now }
    requires items { TakesPairs (part_of_state state.old) key_kind kind }
    ensures answer { MergeAnswer result (merge_all (part_of_state state.old)
        (number_pairs key_kind kind (zip keys.now numbers.now))) (part_of_state state.new) }
    ensures state { IsState state.new }
{
    match state {
        State::Cells(cells) => return merge_cells(cells, keys, numbers),
        State::Keyed(alloc, part) => match merge_numbers(*alloc, part, key_kind, keys, numbers) {
            Ok(()) => return Ok(()),
            Err(_) => return Err(Stop::Memory),
        },
        State::List(alloc, items) => match push_pairs(
            *alloc, items, key_kind, keys, kind, numbers,
        ) {
            Ok(()) => return Ok(()),
            Err(_) => return Err(Stop::Memory),
        },
        State::Totals(alloc, totals) => match side_by_side(*alloc, keys, numbers) {
            Ok(words) => {
                totals.merge_rows(&words, keys.len());
                return Ok(());
            }
            Err(_) => return Err(Stop::Memory),
        },
        _ => return each_into(state, key_kind, keys, kind, numbers),
    }
}

/// The same one by one.
fn each_into(
    state: &mut State,
    key_kind: Kind,
    keys: &[i64],
    kind: Kind,
    numbers: &[i64],
) -> Result<(), Stop>
    requires state { IsState state.old }
    requires narrow_key { IsNarrow key_kind }
    requires keys { AllInRange key_kind keys.now }
    requires narrow { IsNarrow kind }
    requires numbers { AllInRange kind numbers.now }
    requires count { length keys.now ≡ length numbers.now }
    requires items { TakesPairs (part_of_state state.old) key_kind kind }
    ensures answer { MergeAnswer result (merge_all (part_of_state state.old)
        (number_pairs key_kind kind (zip keys.now numbers.now))) (part_of_state state.new) }
    ensures state { IsState state.new }
{
    for i in 0..keys.len() {
        match pair_into(state, key_kind, keys[i], kind, numbers[i]) {
            Ok(()) => {}
            Err(stop) => return Err(stop),
        }
    }
    Ok(())
}
