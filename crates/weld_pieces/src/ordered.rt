//! Numbers by keys in a hashed map.

ghost use Rattle.std.specs.Prelude.{◌≡◌, OnOk, OnErr};
ghost use Rattle.std.specs.List.{IsDistinct};
ghost use Rattle.std.specs.Map.{keys_of, values_of};
ghost use Rattle.weld_data.specs.Kind.{IsInteger, InRange};
ghost use Rattle.weld_builders.specs.Part.{combined};
ghost use Rattle.weld_builders.specs.Range.{AllInRange};
ghost use Rattle.weld_pieces.specs.Keyed.{entry_with, entries_with, JoinsAs};

use crate::number::combine_wide;
use indexmap::IndexMap;
use indexmap::map::Entry;
use std::alloc::AllocError;
use std::hash::Hash;
use std::mem::replace;
use weld_data::{Kind, MergeOp};

/// Merges a number at a key. It takes memory for a new key alone; where that is wanting, the map
/// stays as it was.
pub(crate) fn merge_at<K: Eq + Hash + Drop>(
    map: &mut IndexMap<K, i128>,
    op: MergeOp,
    kind: Kind,
    key: K,
    x: i128,
) -> Result<(), AllocError>
    requires integer { IsInteger kind }
    requires values { AllInRange kind (values_of map.old.entries) }
    requires number { InRange kind x }
    ensures ok { OnOk result (map.new.entries ≡ entry_with K.eq (combined op kind) map.old.entries
        key x) }
    ensures err { OnErr result (map.new.entries ≡ map.old.entries) }
    ensures values { AllInRange kind (values_of map.new.entries) }
{
    let found = match map.entry(key) {
        Ok(found) => found,
        Err(_) => return Err(AllocError),
    };
    match found {
        Entry::Occupied(mut there) => {
            let before = *there.get();
            there.insert(combine_wide(op, kind, before, x));
            Ok(())
        }
        Entry::Vacant(place) => {
            place.insert(x);
            Ok(())
        }
    }
}

/// Merges the numbers of a map at their keys, one after another.
fn merge_each<K: Eq + Hash + Drop>(
    map: &mut IndexMap<K, i128>,
    op: MergeOp,
    kind: Kind,
    more: IndexMap<K, i128>,
) -> Result<(), AllocError>
    requires integer { IsInteger kind }
    requires values { AllInRange kind (values_of map.old.entries) }
    requires more { AllInRange kind (values_of more.entries) }
    ensures ok { OnOk result (map.new.entries ≡ entries_with K.eq (combined op kind) map.old.entries
        more.entries) }
    ensures values { AllInRange kind (values_of map.new.entries) }
    ensures distinct { IsDistinct K.eq (keys_of more.entries) }
{
    for (key, x) in more {
        merge_at(map, op, kind, key, x)?;
    }
    Ok(())
}

/// Merges the numbers of a later map at their keys: those of the smaller map into the larger.
pub(crate) fn merge_all<K: Eq + Hash + Drop>(
    map: &mut IndexMap<K, i128>,
    op: MergeOp,
    kind: Kind,
    later: IndexMap<K, i128>,
) -> Result<(), AllocError>
    requires integer { IsInteger kind }
    requires values { AllInRange kind (values_of map.old.entries) }
    requires later { AllInRange kind (values_of later.entries) }
    ensures ok { OnOk result (JoinsAs K.eq (combined op kind) map.old.entries later.entries
        map.new.entries) }
    ensures values { AllInRange kind (values_of map.new.entries) }
{
    if map.len() < later.len() {
        let earlier = replace(map, later);
        return merge_each(map, op, kind, earlier);
    }
    merge_each(map, op, kind, later)
}
