//! Lists by keys in a hashed map.

ghost use Rattle.std.specs.Prelude.{◌≡◌, ◌∷◌, [], IfOk, OnOk, OnErr};
ghost use Rattle.std.specs.Map.{values_of};
ghost use Rattle.weld_data.specs.View.{view_val};
ghost use Rattle.weld_builders.specs.Part.{appended};
ghost use Rattle.weld_pieces.specs.Items.{items_of_list, kind_of_items};
ghost use Rattle.weld_pieces.specs.Kept.{IsKeptAs};
ghost use Rattle.weld_pieces.specs.Keyed.{entry_with, entries_with, JoinsAs};
ghost use Rattle.weld_groups.specs.Groups.{lists_in, AreListsOf};

use indexmap::IndexMap;
use indexmap::map::Entry;
use std::alloc::{AllocError, Global};
use std::hash::Hash;
use weld_data::{Kind, Val};
use weld_pieces::ListPart;

/// The list of one item.
fn list_of(alloc: Global, kind: Option<Kind>, item: Val) -> Result<ListPart, AllocError>
    requires { IsKeptAs kind (view_val item) }
    ensures items { IfOk result (λ list. items_of_list list ≡ view_val item ∷ []) }
    ensures kind { IfOk result (λ list. kind_of_items list ≡ kind) }
{
    let mut list = ListPart::empty(alloc, kind);
    match list.push(item) {
        Ok(()) => Ok(list),
        Err(e) => Err(e),
    }
}

/// Appends an item to the list at a key. Where memory is wanting, the map stays as it was.
pub(crate) fn push_at<K: Eq + Hash + Drop>(
    alloc: Global,
    map: &mut IndexMap<K, ListPart>,
    kind: Option<Kind>,
    key: K,
    item: Val,
) -> Result<(), AllocError>
    requires lists { AreListsOf kind (values_of map.old.entries) }
    requires item { IsKeptAs kind (view_val item) }
    ensures ok { OnOk result (lists_in map.new.entries ≡ entry_with K.eq appended
        (lists_in map.old.entries) key (view_val item ∷ [])) }
    ensures err { OnErr result (lists_in map.new.entries ≡ lists_in map.old.entries) }
    ensures lists { AreListsOf kind (values_of map.new.entries) }
{
    match map.get_mut(&key) {
        Some(list) => list.push(item),
        None => {
            let list = list_of(alloc, kind, item)?;
            map.insert(key, list)?;
            Ok(())
        }
    }
}

/// Appends the items of a later list to the list at a key. Where memory is wanting, the map stays as
/// it was.
pub(crate) fn append_at<K: Eq + Hash + Drop>(
    map: &mut IndexMap<K, ListPart>,
    kind: Option<Kind>,
    key: K,
    later: ListPart,
) -> Result<(), AllocError>
    requires lists { AreListsOf kind (values_of map.old.entries) }
    requires later { kind_of_items later ≡ kind }
    ensures ok { OnOk result (lists_in map.new.entries ≡ entry_with K.eq appended
        (lists_in map.old.entries) key (items_of_list later)) }
    ensures err { OnErr result (lists_in map.new.entries ≡ lists_in map.old.entries) }
    ensures lists { AreListsOf kind (values_of map.new.entries) }
{
    let found = match map.entry(key) {
        Ok(found) => found,
        Err(_) => return Err(AllocError),
    };
    match found {
        Entry::Occupied(there) => there.into_mut().append(later),
        Entry::Vacant(place) => {
            place.insert(later);
            Ok(())
        }
    }
}

/// Appends the lists of a map at their keys, one after another.
fn append_each<K: Eq + Hash + Drop>(
    map: &mut IndexMap<K, ListPart>,
    kind: Option<Kind>,
    more: IndexMap<K, ListPart>,
) -> Result<(), AllocError>
    requires lists { AreListsOf kind (values_of map.old.entries) }
    requires more { AreListsOf kind (values_of more.entries) }
    ensures ok { OnOk result (lists_in map.new.entries ≡ entries_with K.eq appended
        (lists_in map.old.entries) (lists_in more.entries)) }
    ensures lists { AreListsOf kind (values_of map.new.entries) }
{
    for (key, list) in more {
        append_at(map, kind, key, list)?;
    }
    Ok(())
}

/// Appends the lists of a later map at their keys, behind what is there. To an empty map they come
/// as they are.
pub(crate) fn append_all<K: Eq + Hash + Drop>(
    map: &mut IndexMap<K, ListPart>,
    kind: Option<Kind>,
    later: IndexMap<K, ListPart>,
) -> Result<(), AllocError>
    requires lists { AreListsOf kind (values_of map.old.entries) }
    requires later { AreListsOf kind (values_of later.entries) }
    ensures ok { OnOk result (JoinsAs K.eq appended (lists_in map.old.entries)
        (lists_in later.entries) (lists_in map.new.entries)) }
    ensures lists { AreListsOf kind (values_of map.new.entries) }
{
    if map.is_empty() {
        *map = later;
        return Ok(());
    }
    let _count = later.len();
    append_each(map, kind, later)
}
