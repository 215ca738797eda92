//! What stands at keys, hashed while it is filled and put in the order of keys once, at the end.

ghost use Rattle.std.specs.Prelude.{IfOk};
ghost use Rattle.std.specs.List.{IsDistinct};
ghost use Rattle.std.specs.List.Sorted.{IsStrictlySortedBy, IsPermutation};
ghost use Rattle.std.specs.Map.{keys_of};

use crate::key::Key;
use indexmap::IndexMap;
use std::alloc::{AllocError, Global};
use std::hash::Hash;
use weld_data::Kind;

/// Values of any type by keys. Keys that are one number of a kind whose numbers lie within an i64 are kept as numbers, so that
/// one is asked for without a value.
#[derive(Drop)]
pub enum KeyMap<V> {
    Numbers(Kind, IndexMap<i64, V>),
    Values(IndexMap<Key, V>),
}

impl<V> KeyMap<V> {
    ghost use Rattle.std.specs.Prelude.{◌≡◌, [], IsTrue};
    ghost use Rattle.weld_pieces.specs.KeyMapView.{kind_of_keys, entries_in};

    /// The map without keys, which are to be numbers of a kind, or other values. It takes no memory.
    pub fn empty(alloc: Global, key: Option<Kind>) -> KeyMap<V>
        ensures key { kind_of_keys result ≡ key }
        ensures entries { entries_in result ≡ [] }
    {
        match key {
            Some(kind) => KeyMap::Numbers(kind, IndexMap::new(alloc)),
            None => KeyMap::Values(IndexMap::new(alloc)),
        }
    }

    /// How the keys are kept: as numbers of a kind, or as values. It takes no memory.
    pub fn key(&self) -> Option<Kind>
        ensures { result ≡ kind_of_keys self.now }
    {
        match self {
            KeyMap::Numbers(kind, _) => Some(*kind),
            KeyMap::Values(_) => None,
        }
    }

    /// Whether there are no keys. It takes no memory.
    pub fn is_empty(&self) -> bool
        ensures { IsTrue result → entries_in self.now ≡ [] }
    {
        match self {
            KeyMap::Numbers(_, map) => map.is_empty(),
            KeyMap::Values(map) => map.is_empty(),
        }
    }
}

/// The same entries in the order of their keys.
pub fn in_order<K: Ord + Hash + Drop, V: Drop>(
    map: IndexMap<K, V>,
) -> Result<IndexMap<K, V>, AllocError>
    ensures moved { IfOk result (λ m. IsPermutation map.entries m.entries) }
    ensures distinct { IfOk result (λ m. IsDistinct K.eq (keys_of m.entries)) }
    ensures sorted { IfOk result (λ m. IsStrictlySortedBy K.cmp (keys_of m.entries)) }
{
    let mut map = map;
    match map.sort_unstable_keys() {
        Ok(()) => Ok(map),
        Err(e) => Err(e),
    }
}
