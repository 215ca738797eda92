//! Numbers by keys as a dictionary.

ghost use Rattle.std.specs.Prelude.{◌≡◌, Some, None, IfOk};
ghost use Rattle.std.specs.FinMap as finite;
ghost use Rattle.std.specs.List.Sorted.{IsStrictlySortedBy};
ghost use Rattle.std.specs.Ordering.{int_cmp};
ghost use Rattle.std.specs.Map.{keys_of, values_of};
ghost use Rattle.weld_builders.specs.ValueOrder.{value_cmp};
ghost use Rattle.weld_data.specs.Value.{number};
ghost use Rattle.weld_data.specs.Kind.{InRange};
ghost use Rattle.weld_data.specs.View.{view_val};
ghost use Rattle.weld_builders.specs.Range.{AllInRange};
ghost use Rattle.weld_pieces.specs.Keyed.{map_of, itself, KeysAreKept, HasOneKeyType, shown};

use crate::key::Key;
use crate::key_map::in_order;
use indexmap::IndexMap;
use std::alloc::{AllocError, Global};
use weld_data::{Kind, Num, Pair, Pairs, Val};

/// The dictionary of numbers at keys that are numbers.
fn number_pairs(
    alloc: Global,
    key_kind: Kind,
    kind: Kind,
    map: IndexMap<i64, i128>,
) -> Result<Pairs, AllocError>
    requires keys { AllInRange key_kind (keys_of map.entries) }
    requires sorted { IsStrictlySortedBy int_cmp (keys_of map.entries) }
    requires values { AllInRange kind (values_of map.entries) }
    ensures { IfOk result (λ pairs. pairs ≡ shown (number key_kind) (number kind) map.entries) }
{
    let mut items = Vec::with_capacity(alloc, map.len())?;
    for (key, x) in map {
        items.push(Pair {
            key: key_of(key_kind, key),
            value: number_of(kind, x),
        })?;
    }
    Ok(Pairs::from_vec(items))
}

/// The dictionary of numbers at keys that are kept as values.
fn value_pairs(alloc: Global, kind: Kind, map: IndexMap<Key, i128>) -> Result<Pairs, AllocError>
    requires kept { KeysAreKept None (map_of itself map.entries) }
    requires one_type { HasOneKeyType (map_of itself map.entries) }
    requires sorted { IsStrictlySortedBy value_cmp (keys_of map.entries) }
    requires values { AllInRange kind (values_of map.entries) }
    ensures { IfOk result (λ pairs. pairs ≡ shown itself (number kind) map.entries) }
{
    let mut items = Vec::with_capacity(alloc, map.len())?;
    for (key, x) in map {
        items.push(Pair {
            key: key.into_value(),
            value: number_of(kind, x),
        })?;
    }
    Ok(Pairs::from_vec(items))
}

/// The same of keys that are kept as numbers, as the map of them shows.
pub(crate) fn kept_pairs(
    alloc: Global,
    key_kind: Kind,
    kind: Kind,
    map: IndexMap<i64, i128>,
) -> Result<Pairs, AllocError>
    requires keys { KeysAreKept (Some key_kind) (map_of (number key_kind) map.entries) }
    requires values { AllInRange kind (values_of map.entries) }
    ensures { IfOk result (λ pairs. pairs ≡ shown itself (number kind)
        (finite.entries (map_of (number key_kind) map.entries))) }
{
    let sorted = in_order(map)?;
    number_pairs(alloc, key_kind, kind, sorted)
}

/// The same of keys that are kept as values, as the map of them shows.
pub(crate) fn plain_pairs(
    alloc: Global,
    kind: Kind,
    map: IndexMap<Key, i128>,
) -> Result<Pairs, AllocError>
    requires kept { KeysAreKept None (map_of itself map.entries) }
    requires one_type { HasOneKeyType (map_of itself map.entries) }
    requires values { AllInRange kind (values_of map.entries) }
    ensures { IfOk result (λ pairs. pairs ≡ shown itself (number kind)
        (finite.entries (map_of itself map.entries))) }
{
    let sorted = in_order(map)?;
    value_pairs(alloc, kind, sorted)
}

/// A key that is kept as a number as a value.
pub(crate) fn key_of(kind: Kind, x: i64) -> Val
    requires { InRange kind x }
    ensures { view_val result ≡ number kind x }
{
    Val::Num(Num {
        kind,
        value: i128::from(x),
    })
}

/// A number of a kind as a value.
fn number_of(kind: Kind, x: i128) -> Val
    requires { InRange kind x }
    ensures { view_val result ≡ number kind x }
{
    Val::Num(Num { kind, value: x })
}
