//! Numbers that lie within an i64, merged into cells or at keys one after another. What doesn't change is looked at once.

ghost use Rattle.std.specs.Prelude.{◌≡◌, Some, length, zip, OnOk};
ghost use Rattle.std.specs.Map.{values_of};
ghost use Rattle.weld_data.specs.Kind.{IsInteger, IsNarrow, InRange};
ghost use Rattle.weld_data.specs.Value.{number};
ghost use Rattle.weld_builders.specs.Part.{merge_cell, combined};
ghost use Rattle.weld_builders.specs.Range.{AllInRange};
ghost use Rattle.weld_pieces.specs.Answer.{CellAnswer};
ghost use Rattle.weld_pieces.specs.Keyed.{entries_with, by_value, merged_from};
ghost use Rattle.weld_pieces.specs.KeyMapView.{kind_of_keys};
ghost use Rattle.weld_pieces.specs.KeyedView.{numbers_in, IsKeyed};
ghost use Rattle.weld_pieces.specs.Many.{merged_cells, CellsAnswer};

use crate::cells::place_of;
use crate::key_map::KeyMap;
use crate::number::combine_kept;
use crate::ordered::merge_at;
use indexmap::IndexMap;
use std::alloc::AllocError;
use std::hash::Hash;
use weld_data::{Kind, MergeOp, Stop};

/// Merges numbers into the cells at indexes, from 0, the first one first. It takes no memory.
pub(crate) fn merge_cells(
    op: MergeOp,
    kind: Kind,
    cells: &mut [i64],
    indexes: &[i64],
    numbers: &[i64],
) -> Result<(), Stop>
    requires integer { IsInteger kind }
    requires narrow { IsNarrow kind }
    requires cells { AllInRange kind cells.old }
    requires numbers { AllInRange kind numbers.now }
    requires count { length indexes.now ≡ length numbers.now }
    ensures cells { CellsAnswer result (merged_cells op kind cells.old
        (zip indexes.now numbers.now)) cells.new }
    ensures in_range { AllInRange kind cells.new }
{
    match op {
        MergeOp::Add => merge_by(MergeOp::Add, kind, cells, indexes, numbers),
        MergeOp::Mul => merge_by(MergeOp::Mul, kind, cells, indexes, numbers),
        MergeOp::Min => merge_by(MergeOp::Min, kind, cells, indexes, numbers),
        MergeOp::Max => merge_by(MergeOp::Max, kind, cells, indexes, numbers),
    }
}

/// The same by an operator that is known where it is compiled.
#[inline(always)]
fn merge_by(
    op: MergeOp,
    kind: Kind,
    cells: &mut [i64],
    indexes: &[i64],
    numbers: &[i64],
) -> Result<(), Stop>
    requires integer { IsInteger kind }
    requires narrow { IsNarrow kind }
    requires cells { AllInRange kind cells.old }
    requires numbers { AllInRange kind numbers.now }
    requires count { length indexes.now ≡ length numbers.now }
    ensures cells { CellsAnswer result (merged_cells op kind cells.old
        (zip indexes.now numbers.now)) cells.new }
    ensures in_range { AllInRange kind cells.new }
{
    match kind {
        Kind::I64 => merge_each(op, Kind::I64, cells, indexes, numbers),
        _ => merge_each(op, kind, cells, indexes, numbers),
    }
}

/// The same by an operator and at a kind that are known where it is compiled.
#[inline(always)]
fn merge_each(
    op: MergeOp,
    kind: Kind,
    cells: &mut [i64],
    indexes: &[i64],
    numbers: &[i64],
) -> Result<(), Stop>
    requires integer { IsInteger kind }
    requires narrow { IsNarrow kind }
    requires cells { AllInRange kind cells.old }
    requires numbers { AllInRange kind numbers.now }
    requires count { length indexes.now ≡ length numbers.now }
    ensures cells { CellsAnswer result (merged_cells op kind cells.old
        (zip indexes.now numbers.now)) cells.new }
    ensures in_range { AllInRange kind cells.new }
{
    for i in 0..indexes.len() {
        match merge_one(op, kind, cells, indexes[i], numbers[i]) {
            Ok(()) => {}
            Err(stop) => return Err(stop),
        }
    }
    Ok(())
}

/// Merges a number into the cell at an index, from 0.
#[inline(always)]
fn merge_one(op: MergeOp, kind: Kind, cells: &mut [i64], index: i64, x: i64) -> Result<(), Stop>
    requires integer { IsInteger kind }
    requires narrow { IsNarrow kind }
    requires cells { AllInRange kind cells.old }
    requires number { InRange kind x }
    ensures cells { CellAnswer result (merge_cell op kind cells.old index x) cells.old cells.new }
    ensures in_range { AllInRange kind cells.new }
{
    match place_of(index, cells.len()) {
        None => Err(Stop::Fault),
        Some(place) => {
            cells[place] = combine_kept(op, kind, cells[place], x);
            Ok(())
        }
    }
}

/// Merges numbers at keys that are numbers, the first one first. It takes memory for new keys alone;
/// where that is wanting, it has merged some of them.
pub(crate) fn many_in(
    map: &mut KeyMap<i128>,
    op: MergeOp,
    kind: Kind,
    key_kind: Kind,
    keys: &[i64],
    numbers: &[i64],
) -> Result<(), AllocError>
    requires kept { kind_of_keys map.old ≡ Some key_kind }
    requires keyed { IsKeyed kind map.old }
    requires narrow { IsNarrow kind }
    requires numbers { AllInRange kind numbers.now }
    requires count { length keys.now ≡ length numbers.now }
    ensures ok { OnOk result (numbers_in map.new
        ≡ merged_from (combined op kind) (numbers_in map.old)
        (by_value (number key_kind) (zip keys.now numbers.now))) }
    ensures keyed { IsKeyed kind map.new }
    ensures kept { kind_of_keys map.new ≡ kind_of_keys map.old }
{
    match map {
        KeyMap::Numbers(_, entries) => match merge_keys(entries, op, kind, keys, numbers) {
            Ok(()) => return Ok(()),
            Err(e) => return Err(e),
        },
        KeyMap::Values(_) => unreachable!(),
    }
}

/// The same of a map whose keys are of any type.
fn merge_keys<K: Eq + Hash + Drop + Copy>(
    map: &mut IndexMap<K, i128>,
    op: MergeOp,
    kind: Kind,
    keys: &[K],
    numbers: &[i64],
) -> Result<(), AllocError>
    requires integer { IsInteger kind }
    requires narrow { IsNarrow kind }
    requires values { AllInRange kind (values_of map.old.entries) }
    requires numbers { AllInRange kind numbers.now }
    requires count { length keys.now ≡ length numbers.now }
    ensures ok { OnOk result (map.new.entries ≡ entries_with K.eq (combined op kind) map.old.entries
        (zip keys.now numbers.now)) }
    ensures values { AllInRange kind (values_of map.new.entries) }
{
    for i in 0..numbers.len() {
        match merge_at(map, op, kind, keys[i], i128::from(numbers[i])) {
            Ok(()) => {}
            Err(e) => return Err(e),
        }
    }
    Ok(())
}
