//! Structs of numbers as the items of a list, which keeps them by their numbers, and of totals, which combine them.

ghost use Rattle.std.specs.Prelude.{◌≡◌, ◌<◌, ◌∷◌, ◌++◌, [], length, zip, get_or, pos, None, IfOk, OnOk};
ghost use Rattle.weld_builders.specs.Outcome.{done};
ghost use Rattle.weld_builders.specs.Range.{AllInRange};
ghost use Rattle.weld_data.specs.Kind.{IsNarrow, InRange};
ghost use Rattle.weld_data.specs.Structs.{structs_in, AreKeptStructs};
ghost use Rattle.weld_data.specs.Value.{number};
ghost use Rattle.weld_pieces.specs.Items.{items_of_list, kind_of_items};
ghost use Rattle.weld_built.specs.Merges.{merge_all, MayAppend};
ghost use Rattle.weld_built.specs.Pair.{pair, number_pairs};
ghost use Rattle.weld_built.specs.Rows.{interleaved};
ghost use Rattle.weld_built.specs.State.{part_of_state, IsState};

use crate::built::State;
use crate::fitting::number_of;
use crate::list::{join_lists, push_pair};
use std::alloc::{AllocError, Global};
use weld_data::{Kind, Structs};
use weld_pieces::ListPart;

/// Merges so many structs of numbers into a builder, where it is a list or totals of numbers of these kinds.
#[tactic(auto, using(crate::proofs::ManyLemmas::merged_list))]
pub(crate) fn rows_into(
    state: &mut State,
    kinds: &[Kind],
    numbers: &[i64],
    count: usize,
) -> Result<bool, AllocError>
    requires state { IsState state.old }
    requires structs { AreKeptStructs count kinds.now numbers.now }
    ensures answer { MayAppend result (part_of_state state.old)
        (λ all. merge_all (part_of_state state.old) (structs_in count kinds.now numbers.now)
        ≡ done all) (part_of_state state.new) }
    ensures state { IsState state.new }
{
    match state {
        State::List(alloc, list) => match push_rows(*alloc, list, kinds, numbers, count) {
            Ok(()) => return Ok(true),
            Err(e) => return Err(e),
        },
        State::Totals(_, totals) => {
            if !totals.has_kinds(kinds) {
                return Ok(false);
            }
            totals.merge_rows(numbers, count);
            return Ok(true);
        }
        _ => return Ok(false),
    }
}

/// Appends so many structs of these kinds, whose numbers stand one after another.
fn push_rows(
    alloc: Global,
    list: &mut ListPart,
    kinds: &[Kind],
    numbers: &[i64],
    count: usize,
) -> Result<(), AllocError>
    requires { AreKeptStructs count kinds.now numbers.now }
    ensures { OnOk result (items_of_list list.new ≡ items_of_list list.old
        ++ structs_in count kinds.now numbers.now) }
{
    if let ListPart::Structs(rows) = list {
        match rows.append_numbers(kinds, numbers, count) {
            Ok(true) => return Ok(()),
            Ok(false) => {}
            Err(e) => return Err(e),
        }
    }
    let kinds = Vec::from_slice(alloc, kinds)?;
    let numbers = Vec::from_slice(alloc, numbers)?;
    match Structs::from_numbers(alloc, kinds, numbers, count) {
        Ok(rows) => push_list(alloc, list, rows),
        Err(e) => Err(e),
    }
}

/// Appends structs to a list that keeps its items otherwise. Where there are none yet, it keeps them so from then on.
fn push_list(alloc: Global, list: &mut ListPart, rows: Structs) -> Result<(), AllocError>
    ensures { OnOk result (items_of_list list.new ≡ items_of_list list.old ++ rows) }
{
    if list.is_empty() {
        return begin(list, rows);
    }
    join_lists(alloc, list, ListPart::Structs(rows))
}

/// Keeps structs where there are no items yet, with room for as many more as there was room for.
pub(crate) fn begin(list: &mut ListPart, rows: Structs) -> Result<(), AllocError>
    requires { items_of_list list.old ≡ [] }
    ensures items { OnOk result (items_of_list list.new ≡ rows) }
    ensures kind { OnOk result (kind_of_items list.new ≡ None) }
{
    let mut rows = rows;
    match rows.reserve(list.spare()) {
        Ok(()) => {
            *list = ListPart::Structs(rows);
            Ok(())
        }
        Err(e) => Err(e),
    }
}

/// Appends a struct of two numbers that lie within an i64.
pub(crate) fn push_two(
    alloc: Global,
    list: &mut ListPart,
    key_kind: Kind,
    key: i64,
    kind: Kind,
    x: i64,
) -> Result<(), AllocError>
    requires key { InRange key_kind key }
    requires number { InRange kind x }
    ensures { OnOk result (items_of_list list.new ≡ items_of_list list.old
        ++ pair (number key_kind key) (number kind x) ∷ []) }
{
    if key_kind.is_narrow() && kind.is_narrow() {
        if let ListPart::Structs(rows) = list {
            match rows.append_numbers(&[key_kind, kind], &[key, x], 1) {
                Ok(true) => return Ok(()),
                Ok(false) => {}
                Err(e) => return Err(e),
            }
        }
    }
    push_pair(alloc, list, number_of(key_kind, key), number_of(kind, x))
}

/// Appends structs of two numbers, which are given side by side.
pub(crate) fn push_pairs(
    alloc: Global,
    list: &mut ListPart,
    key_kind: Kind,
    keys: &[i64],
    kind: Kind,
    numbers: &[i64],
) -> Result<(), AllocError>
    requires narrow_key { IsNarrow key_kind }
    requires keys { AllInRange key_kind keys.now }
    requires narrow { IsNarrow kind }
    requires numbers { AllInRange kind numbers.now }
    requires count { length keys.now ≡ length numbers.now }
    ensures { OnOk result (items_of_list list.new ≡ items_of_list list.old
        ++ number_pairs key_kind kind (zip keys.now numbers.now)) }
{
    let words = side_by_side(alloc, keys, numbers)?;
    push_rows(alloc, list, &[key_kind, kind], &words, keys.len())
}

/// The numbers of both, struct by struct.
pub(crate) fn side_by_side(
    alloc: Global,
    keys: &[i64],
    numbers: &[i64],
) -> Result<Vec<i64>, AllocError>
    requires { length keys.now ≡ length numbers.now }
    ensures { IfOk result (λ words. words.items ≡ interleaved keys.now numbers.now) }
{
    let mut words = Vec::with_capacity(alloc, keys.len())?;
    words.reserve(keys.len())?;
    'rows: for i in 0..keys.len() {
        words.push(word_at(keys, i))?;
        words.push(word_at(numbers, i))?;
    }
    Ok(words)
}

/// The word at a place, from 0.
#[inline(always)]
fn word_at(words: &[i64], place: usize) -> i64
    requires { place < length words.now }
    ensures { result ≡ get_or words.now place (pos 0) }
{
    words[place]
}
