//! Lists by keys.

ghost use Rattle.std.specs.Prelude.{◌≡◌, ◌∷◌, [], None, OnOk};
ghost use Rattle.weld_data.specs.Order.{IsKey};
ghost use Rattle.weld_data.specs.View.{view_val};
ghost use Rattle.weld_builders.specs.Part.{appended, merge_key, join_maps};
ghost use Rattle.weld_pieces.specs.Kept.{IsKeptAs, IsKeptKey};
ghost use Rattle.weld_built.specs.State.{AreKeys};

use crate::fitting::{are_alike, best_for, best_for_key, keeps_item, keeps_key};
use std::alloc::{AllocError, Global};
use weld_data::Val;
use weld_groups::GroupsPart;

/// Appends an item to the list of a key.
pub(crate) fn push_item(
    alloc: Global,
    part: &mut GroupsPart,
    key: Val,
    item: Val,
) -> Result<(), AllocError>
    requires keys { AreKeys part.old.key part.old.groups }
    requires key { IsKey (view_val key) }
    ensures ok { OnOk result (part.new.groups ≡ merge_key appended part.old.groups (view_val key)
        (view_val item ∷ [])) }
    ensures keys { AreKeys part.new.key part.new.groups }
{
    match make_ready(alloc, part, &key, &item) {
        Ok(()) => part.push_at_value(key, item),
        Err(e) => Err(e),
    }
}

/// Chooses how keys and items are kept such that these can be one of them.
fn make_ready(alloc: Global, part: &mut GroupsPart, key: &Val, item: &Val) -> Result<(), AllocError>
    requires keys { AreKeys part.old.key part.old.groups }
    requires key { IsKey (view_val key.now) }
    ensures kept { OnOk result (IsKeptKey part.new.key (view_val key.now)) }
    ensures item { OnOk result (IsKeptAs part.new.items (view_val item.now)) }
    ensures groups { part.new.groups ≡ part.old.groups }
    ensures keys { AreKeys part.new.key part.new.groups }
{
    if part.is_empty() {
        *part = GroupsPart::empty(alloc, best_for_key(key), best_for(item));
        return Ok(());
    }
    if keeps_key(part.key(), key) && keeps_item(part.items(), item) {
        return Ok(());
    }
    make_values(alloc, part)
}

/// Keeps the keys and the items as values.
fn make_values(alloc: Global, part: &mut GroupsPart) -> Result<(), AllocError>
    requires keys { AreKeys part.old.key part.old.groups }
    ensures key { OnOk result (part.new.key ≡ None) }
    ensures items { OnOk result (part.new.items ≡ None) }
    ensures groups { part.new.groups ≡ part.old.groups }
    ensures keys { AreKeys part.new.key part.new.groups }
{
    if part.key().is_none() && part.items().is_none() {
        return Ok(());
    }
    match part.copy_as(alloc, None, None) {
        Ok(values) => {
            *part = values;
            Ok(())
        }
        Err(e) => Err(e),
    }
}

/// Appends the lists of a later part.
#[tactic(auto, using(crate::proofs::KeyLemmas::lists_to_none))]
pub(crate) fn join_groups(
    alloc: Global,
    part: &mut GroupsPart,
    later: GroupsPart,
) -> Result<(), AllocError>
    requires keys { AreKeys part.old.key part.old.groups }
    requires later { AreKeys later.key later.groups }
    ensures ok { OnOk result (part.new.groups ≡ join_maps appended part.old.groups later.groups) }
    ensures keys { AreKeys part.new.key part.new.groups }
{
    if are_alike(part.key(), later.key()) && are_alike(part.items(), later.items()) {
        return append(alloc, part, later);
    }
    if part.is_empty() {
        *part = later;
        return Ok(());
    }
    append_copy(alloc, part, &later)
}

/// The same of a part whose keys or items are kept otherwise.
#[tactic(auto, using(crate::proofs::KeyLemmas::no_lists_joined, crate::proofs::KeyLemmas::keys_as_values))]
fn append_copy(alloc: Global, part: &mut GroupsPart, later: &GroupsPart) -> Result<(), AllocError>
    requires keys { AreKeys part.old.key part.old.groups }
    requires later { AreKeys later.now.key later.now.groups }
    ensures ok { OnOk result (part.new.groups ≡ join_maps appended part.old.groups
        later.now.groups) }
    ensures keys { AreKeys part.new.key part.new.groups }
{
    if later.is_empty() {
        return Ok(());
    }
    make_values(alloc, part)?;
    let more = later.copy_as(alloc, None, None)?;
    append(alloc, part, more)
}

/// The same of a part that is kept alike. Where memory is wanting, nothing is left.
fn append(alloc: Global, part: &mut GroupsPart, later: GroupsPart) -> Result<(), AllocError>
    requires keys { AreKeys part.old.key part.old.groups }
    requires later { AreKeys later.key later.groups }
    requires key { part.old.key ≡ later.key }
    requires items { part.old.items ≡ later.items }
    ensures ok { OnOk result (part.new.groups ≡ join_maps appended part.old.groups later.groups) }
    ensures keys { AreKeys part.new.key part.new.groups }
{
    match part.append(later) {
        Ok(()) => Ok(()),
        Err(e) => {
            *part = GroupsPart::empty(alloc, None, None);
            Err(e)
        }
    }
}
