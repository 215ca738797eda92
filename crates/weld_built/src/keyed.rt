//! Numbers by keys.

ghost use Rattle.std.specs.Prelude.{◌≡◌, Some, None, OnOk, length, zip};
ghost use Rattle.weld_data.specs.Kind.{InRange, IsNarrow};
ghost use Rattle.weld_data.specs.Order.{IsKey};
ghost use Rattle.weld_data.specs.Value.{number};
ghost use Rattle.weld_data.specs.View.{view_val};
ghost use Rattle.weld_builders.specs.Part.{combined, merge_key, join_maps};
ghost use Rattle.weld_builders.specs.Range.{AllInRange};
ghost use Rattle.weld_pieces.specs.Kept.{IsKeptKey};
ghost use Rattle.weld_pieces.specs.Keyed.{by_value, merged_from};
ghost use Rattle.weld_built.specs.State.{AreKeys};

use crate::fitting::{are_alike, best_for_key, keeps, keeps_key, number_of};
use std::alloc::{AllocError, Global};
use weld_data::{Kind, Val};
use weld_pieces::KeyedPart;

/// Merges a number at a key that is a number.
#[inline]
pub(crate) fn merge_number(
    alloc: Global,
    part: &mut KeyedPart,
    key_kind: Kind,
    key: i64,
    x: i128,
) -> Result<(), AllocError>
    requires keys { AreKeys part.old.key part.old.numbers }
    requires key { InRange key_kind key }
    requires in_range { InRange part.old.kind x }
    ensures ok { OnOk result (part.new.numbers ≡ merge_key (combined part.old.op part.old.kind)
        part.old.numbers (number key_kind key) x) }
    ensures keys { AreKeys part.new.key part.new.numbers }
    ensures op { part.new.op ≡ part.old.op }
    ensures kind { part.new.kind ≡ part.old.kind }
{
    if keeps(part.key(), key_kind) {
        return part.merge_number(key_kind, key, x);
    }
    merge_value(alloc, part, number_of(key_kind, key), x)
}

/// Merges numbers at keys that are numbers, the first one first.
pub(crate) fn merge_numbers(
    alloc: Global,
    part: &mut KeyedPart,
    key_kind: Kind,
    keys: &[i64],
    numbers: &[i64],
) -> Result<(), AllocError>
    requires keys { AreKeys part.old.key part.old.numbers }
    requires narrow_key { IsNarrow key_kind }
    requires keys_in_range { AllInRange key_kind keys.now }
    requires narrow { IsNarrow part.old.kind }
    requires numbers { AllInRange part.old.kind numbers.now }
    requires count { length keys.now ≡ length numbers.now }
    ensures ok { OnOk result (part.new.numbers ≡ merged_from (combined part.old.op part.old.kind)
        part.old.numbers (by_value (number key_kind) (zip keys.now numbers.now))) }
    ensures keys { AreKeys part.new.key part.new.numbers }
    ensures op { part.new.op ≡ part.old.op }
    ensures kind { part.new.kind ≡ part.old.kind }
{
    make_ready_for(alloc, part, key_kind);
    if keeps(part.key(), key_kind) {
        return merge_kept(alloc, part, key_kind, keys, numbers);
    }
    merge_each(alloc, part, key_kind, keys, numbers)
}

/// Keeps keys that are numbers of the kind where there are no keys yet. It takes no memory.
fn make_ready_for(alloc: Global, part: &mut KeyedPart, key_kind: Kind)
    requires keys { AreKeys part.old.key part.old.numbers }
    requires narrow_key { IsNarrow key_kind }
    ensures numbers { part.new.numbers ≡ part.old.numbers }
    ensures keys { AreKeys part.new.key part.new.numbers }
    ensures op { part.new.op ≡ part.old.op }
    ensures kind { part.new.kind ≡ part.old.kind }
{
    if part.is_empty() && !keeps(part.key(), key_kind) {
        let shape = part.shape();
        *part = KeyedPart::empty(alloc, Some(key_kind), shape.op, shape.kind);
    }
}

/// Merges numbers at keys that are kept as they come. Where memory is wanting, nothing is left.
fn merge_kept(
    alloc: Global,
    part: &mut KeyedPart,
    key_kind: Kind,
    keys: &[i64],
    numbers: &[i64],
) -> Result<(), AllocError>
    requires keys { AreKeys part.old.key part.old.numbers }
    requires kept { part.old.key ≡ Some key_kind }
    requires narrow_key { IsNarrow key_kind }
    requires keys_in_range { AllInRange key_kind keys.now }
    requires narrow { IsNarrow part.old.kind }
    requires numbers { AllInRange part.old.kind numbers.now }
    requires count { length keys.now ≡ length numbers.now }
    ensures ok { OnOk result (part.new.numbers ≡ merged_from (combined part.old.op part.old.kind)
        part.old.numbers (by_value (number key_kind) (zip keys.now numbers.now))) }
    ensures keys { AreKeys part.new.key part.new.numbers }
    ensures op { part.new.op ≡ part.old.op }
    ensures kind { part.new.kind ≡ part.old.kind }
{
    match part.merge_numbers(key_kind, keys, numbers) {
        Ok(()) => Ok(()),
        Err(e) => {
            let shape = part.shape();
            *part = KeyedPart::empty(alloc, None, shape.op, shape.kind);
            Err(e)
        }
    }
}

/// Merges numbers at keys that are numbers, however the keys are kept.
fn merge_each(
    alloc: Global,
    part: &mut KeyedPart,
    key_kind: Kind,
    keys: &[i64],
    numbers: &[i64],
) -> Result<(), AllocError>
    requires keys { AreKeys part.old.key part.old.numbers }
    requires narrow_key { IsNarrow key_kind }
    requires keys_in_range { AllInRange key_kind keys.now }
    requires narrow { IsNarrow part.old.kind }
    requires numbers { AllInRange part.old.kind numbers.now }
    requires count { length keys.now ≡ length numbers.now }
    ensures ok { OnOk result (part.new.numbers ≡ merged_from (combined part.old.op part.old.kind)
        part.old.numbers (by_value (number key_kind) (zip keys.now numbers.now))) }
    ensures keys { AreKeys part.new.key part.new.numbers }
    ensures op { part.new.op ≡ part.old.op }
    ensures kind { part.new.kind ≡ part.old.kind }
{
    for i in 0..keys.len() {
        match merge_number(alloc, part, key_kind, keys[i], i128::from(numbers[i])) {
            Ok(()) => {}
            Err(e) => return Err(e),
        }
    }
    Ok(())
}

/// Merges a number at a key.
pub(crate) fn merge_value(
    alloc: Global,
    part: &mut KeyedPart,
    key: Val,
    x: i128,
) -> Result<(), AllocError>
    requires keys { AreKeys part.old.key part.old.numbers }
    requires key { IsKey (view_val key) }
    requires in_range { InRange part.old.kind x }
    ensures ok { OnOk result (part.new.numbers ≡ merge_key (combined part.old.op part.old.kind)
        part.old.numbers (view_val key) x) }
    ensures keys { AreKeys part.new.key part.new.numbers }
    ensures op { part.new.op ≡ part.old.op }
    ensures kind { part.new.kind ≡ part.old.kind }
{
    match make_ready(alloc, part, &key) {
        Ok(()) => part.merge_at_value(key, x),
        Err(e) => Err(e),
    }
}

/// Chooses how keys are kept such that the key can be one of them.
fn make_ready(alloc: Global, part: &mut KeyedPart, key: &Val) -> Result<(), AllocError>
    requires keys { AreKeys part.old.key part.old.numbers }
    requires key { IsKey (view_val key.now) }
    ensures kept { OnOk result (IsKeptKey part.new.key (view_val key.now)) }
    ensures numbers { part.new.numbers ≡ part.old.numbers }
    ensures keys { AreKeys part.new.key part.new.numbers }
    ensures op { part.new.op ≡ part.old.op }
    ensures kind { part.new.kind ≡ part.old.kind }
{
    if part.is_empty() {
        let shape = part.shape();
        *part = KeyedPart::empty(alloc, best_for_key(key), shape.op, shape.kind);
        return Ok(());
    }
    if keeps_key(part.key(), key) {
        return Ok(());
    }
    make_values(alloc, part)
}

/// Keeps the keys as values.
#[tactic(auto, using(crate::proofs::KeyLemmas::keys_as_values))]
fn make_values(alloc: Global, part: &mut KeyedPart) -> Result<(), AllocError>
    requires keys { AreKeys part.old.key part.old.numbers }
    ensures key { OnOk result (part.new.key ≡ None) }
    ensures numbers { part.new.numbers ≡ part.old.numbers }
    ensures keys { AreKeys part.new.key part.new.numbers }
    ensures op { part.new.op ≡ part.old.op }
    ensures kind { part.new.kind ≡ part.old.kind }
{
    if part.key().is_none() {
        return Ok(());
    }
    match part.copy_as(alloc, None) {
        Ok(values) => {
            *part = values;
            Ok(())
        }
        Err(e) => Err(e),
    }
}

/// Merges the numbers of a later part of the same operator and kind.
pub(crate) fn join_keyed(
    alloc: Global,
    part: &mut KeyedPart,
    later: KeyedPart,
) -> Result<(), AllocError>
    requires keys { AreKeys part.old.key part.old.numbers }
    requires later { AreKeys later.key later.numbers }
    requires op { part.old.op ≡ later.op }
    requires kind { part.old.kind ≡ later.kind }
    ensures ok { OnOk result (part.new.numbers ≡ join_maps (combined part.old.op part.old.kind)
        part.old.numbers later.numbers) }
    ensures keys { AreKeys part.new.key part.new.numbers }
    ensures op { part.new.op ≡ part.old.op }
    ensures kind { part.new.kind ≡ part.old.kind }
{
    if are_alike(part.key(), later.key()) {
        return append(alloc, part, later);
    }
    if part.is_empty() {
        *part = later;
        return Ok(());
    }
    append_copy(alloc, part, &later)
}

/// The same of a part whose keys are kept otherwise.
fn append_copy(alloc: Global, part: &mut KeyedPart, later: &KeyedPart) -> Result<(), AllocError>
    requires keys { AreKeys part.old.key part.old.numbers }
    requires later { AreKeys later.now.key later.now.numbers }
    requires kind { part.old.kind ≡ later.now.kind }
    ensures ok { OnOk result (part.new.numbers ≡ join_maps (combined part.old.op part.old.kind)
        part.old.numbers later.now.numbers) }
    ensures keys { AreKeys part.new.key part.new.numbers }
    ensures op { part.new.op ≡ part.old.op }
    ensures kind { part.new.kind ≡ part.old.kind }
{
    if later.is_empty() {
        return Ok(());
    }
    make_values(alloc, part)?;
    let more = later.copy_as(alloc, None)?;
    append(alloc, part, more)
}

/// The same of a part whose keys are kept alike. Where memory is wanting, nothing is left.
fn append(alloc: Global, part: &mut KeyedPart, later: KeyedPart) -> Result<(), AllocError>
    requires keys { AreKeys part.old.key part.old.numbers }
    requires later { AreKeys later.key later.numbers }
    requires key { part.old.key ≡ later.key }
    requires kind { part.old.kind ≡ later.kind }
    ensures ok { OnOk result (part.new.numbers ≡ join_maps (combined part.old.op part.old.kind)
        part.old.numbers later.numbers) }
    ensures keys { AreKeys part.new.key part.new.numbers }
    ensures op { part.new.op ≡ part.old.op }
    ensures kind { part.new.kind ≡ part.old.kind }
{
    match part.append(later) {
        Ok(()) => Ok(()),
        Err(e) => {
            let shape = part.shape();
            *part = KeyedPart::empty(alloc, None, shape.op, shape.kind);
            Err(e)
        }
    }
}
