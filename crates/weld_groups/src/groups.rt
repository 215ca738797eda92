ghost use Rattle.std.specs.Prelude.{◌≡◌, ◌∷◌, [], Some, None, IfOk, OnOk, OnErr};
ghost use Rattle.std.specs.Map.{keys_of, values_of};
ghost use Rattle.weld_data.specs.Kind.{IsNarrow, InRange};
ghost use Rattle.weld_data.specs.Order.{IsKey};
ghost use Rattle.weld_data.specs.Value.{number};
ghost use Rattle.weld_data.specs.View.{view_val};
ghost use Rattle.weld_builders.specs.Part.{appended, merge_key, join_maps};
ghost use Rattle.weld_builders.specs.Range.{AllInRange};
ghost use Rattle.weld_pieces.specs.Items.{items_of_list, kind_of_items};
ghost use Rattle.weld_pieces.specs.Kept.{IsKeptAs};
ghost use Rattle.weld_pieces.specs.Keyed.{map_of, itself, by_value, merged_from, CanKeep, KeysAreKept};
ghost use Rattle.weld_groups.specs.Groups.{lists_in, CanKeepEach};
ghost use Rattle.weld_pieces.specs.KeyMapView.{kind_of_keys};
ghost use Rattle.weld_groups.specs.GroupsView.{groups_in, all_lists, AreGroupsOf};

use crate::lists::{append_all, append_at, push_at};
use crate::pairs::{kept_pairs, number_of, plain_pairs};
use indexmap::IndexMap;
use std::alloc::{AllocError, Global};
use std::marker::Model;
use weld_data::{Kind, Pairs, Stop, Val};
use weld_pieces::key::Key;
use weld_pieces::key_map::KeyMap;
use weld_pieces::{ListPart, Part};

/// Lists of items by keys, the items of a key in the order of their merges. Keys that are one number
/// of a kind whose numbers lie within an i64 are kept as numbers, and the items of each list as
/// numbers of one kind or as values.
#[derive(Drop)]
pub struct GroupsPart {
    alloc: Global,
    items: Option<Kind>,
    map: KeyMap<ListPart>,
}

impl Model for GroupsPart {
    ghost use Rattle.weld_groups.specs.Groups.{Groups, coded_groups};

    ghost Value = { Groups };

    ghost coded = { coded_groups };

    ghost use Rattle.weld_pieces.specs.KeyMapView.{kind_of_keys};
    ghost use Rattle.weld_groups.specs.GroupsView.{groups_in, AreGroupsOf};

    ghost view = { λ g. record { key = kind_of_keys g.map; items = g.items; groups = groups_in g.map } };

    ghost invariant = { λ g. AreGroupsOf g.items g.map };
}

impl GroupsPart {
    ghost use Rattle.std.specs.Prelude.{◌≡◌, ◌∷◌, [], Some, None, IsTrue, IfOk, OnOk, OnErr};
    ghost use Rattle.std.specs.FinMap as finite;
    ghost use Rattle.weld_data.specs.Kind.{InRange};
    ghost use Rattle.weld_data.specs.Order.{IsKey};
    ghost use Rattle.weld_data.specs.Value.{number};
    ghost use Rattle.weld_data.specs.View.{view_val};
    ghost use Rattle.weld_builders.specs.Part.{appended, merge_key, join_maps};
    ghost use Rattle.weld_pieces.specs.Kept.{IsKeptAs, IsKeptKey, IsNarrowKey};
    ghost use Rattle.weld_pieces.specs.Items.{items_of_list, kind_of_items};
    ghost use Rattle.weld_pieces.specs.Keyed.{KeysAreKept, HasOneKeyType, itself, shown, CanKeep};
    ghost use Rattle.weld_groups.specs.Groups.{list_value};

    /// The map without keys, which are to be numbers of a kind, or other values; the items of the
    /// lists are to be kept so. It takes no memory.
    pub fn empty(alloc: Global, key: Option<Kind>, items: Option<Kind>) -> GroupsPart
        requires { IsNarrowKey key }
        ensures key { result.key ≡ key }
        ensures items { result.items ≡ items }
        ensures groups { result.groups ≡ finite.empty }
    {
        let map = KeyMap::empty(alloc, key);
        GroupsPart { alloc, items, map }
    }

    /// How the keys are kept: as numbers of a kind, or as values. It takes no memory.
    pub fn key(&self) -> Option<Kind>
        ensures key { result ≡ self.now.key }
        ensures narrow { IsNarrowKey self.now.key }
    {
        self.map.key()
    }

    /// How the items of each list are kept: as numbers of a kind, or as values. It takes no memory.
    pub fn items(&self) -> Option<Kind>
        ensures { result ≡ self.now.items }
    {
        self.items
    }

    /// Whether there are no keys. It takes no memory.
    pub fn is_empty(&self) -> bool
        ensures none { IsTrue result → self.now.groups ≡ finite.empty }
    {
        self.map.is_empty()
    }

    /// A part that has the same lists. Its keys and items are to be kept as they are here, or as
    /// values.
    pub fn copy_as(
        &self,
        alloc: Global,
        key: Option<Kind>,
        items: Option<Kind>,
    ) -> Result<GroupsPart, AllocError>
        requires kept { KeysAreKept self.now.key self.now.groups }
        requires key { CanKeep key self.now.key }
        requires items { CanKeep items self.now.items }
        ensures key { IfOk result (λ copy. copy.key ≡ key) }
        ensures items { IfOk result (λ copy. copy.items ≡ items) }
        ensures groups { IfOk result (λ copy. copy.groups ≡ self.now.groups) }
    {
        let map = &self.map;
        let mut copy = GroupsPart::empty(alloc, key, items);
        match add_map(&mut copy, alloc, map) {
            Ok(()) => Ok(copy),
            Err(e) => Err(e),
        }
    }

    /// Appends items to the list of a key, however the keys are kept. Where memory is wanting, the
    /// part stays as it was.
    fn append_at_value(&mut self, key: Val, list: ListPart) -> Result<(), AllocError>
        requires key { IsKeptKey self.old.key (view_val key) }
        requires items { kind_of_items list ≡ self.old.items }
        ensures ok { OnOk result (self.new.groups ≡ merge_key appended self.old.groups
            (view_val key) (items_of_list list)) }
        ensures key { self.new.key ≡ self.old.key }
        ensures items { self.new.items ≡ self.old.items }
    {
        match self.key() {
            Some(kind) => match key {
                Val::Num(n) => list_in_numbers(
                    &mut self.map,
                    self.items,
                    kind,
                    narrow(kind, n.value),
                    list,
                ),
                _ => unreachable!(),
            },
            None => list_in_values(&mut self.map, self.items, key, list),
        }
    }

    /// Appends an item to the list of a key that is a number. Where memory is wanting, the part stays
    /// as it was.
    pub fn push_at_number(&mut self, key_kind: Kind, key: i64, item: Val) -> Result<(), AllocError>
        requires kept { self.old.key ≡ Some key_kind }
        requires key { InRange key_kind key }
        requires item { IsKeptAs self.old.items (view_val item) }
        ensures ok { OnOk result (self.new.groups ≡ merge_key appended self.old.groups
            (number key_kind key) (view_val item ∷ [])) }
        ensures err { OnErr result (self.new.groups ≡ self.old.groups) }
        ensures key { self.new.key ≡ self.old.key }
        ensures items { self.new.items ≡ self.old.items }
    {
        number_in(&mut self.map, self.alloc, self.items, key_kind, key, item)
    }

    /// Appends an item to the list of a key, however the keys are kept. Where memory is wanting, the
    /// part stays as it was.
    pub fn push_at_value(&mut self, key: Val, item: Val) -> Result<(), AllocError>
        requires key { IsKeptKey self.old.key (view_val key) }
        requires item { IsKeptAs self.old.items (view_val item) }
        ensures ok { OnOk result (self.new.groups ≡ merge_key appended self.old.groups
            (view_val key) (view_val item ∷ [])) }
        ensures err { OnErr result (self.new.groups ≡ self.old.groups) }
        ensures key { self.new.key ≡ self.old.key }
        ensures items { self.new.items ≡ self.old.items }
    {
        match self.key() {
            Some(kind) => match key {
                Val::Num(n) => self.push_at_number(kind, narrow(kind, n.value), item),
                _ => unreachable!(),
            },
            None => value_in(&mut self.map, self.alloc, self.items, key, item),
        }
    }

    /// Appends the lists of a later part that is kept alike at their keys. After want of memory it has
    /// appended some of them.
    pub fn append(&mut self, later: GroupsPart) -> Result<(), AllocError>
        requires key { self.old.key ≡ later.key }
        requires items { self.old.items ≡ later.items }
        ensures ok { OnOk result (self.new.groups ≡ join_maps appended self.old.groups
            later.groups) }
        ensures key { self.new.key ≡ self.old.key }
        ensures items { self.new.items ≡ self.old.items }
    {
        let GroupsPart {
            alloc: _,
            items: _,
            map: more,
        } = later;
        all_in(&mut self.map, self.items, more)
    }

    /// The dictionary of the keys and lists, which keep their memory. The keys are of one type, and
    /// those that are numbers lie in the range of their kind.
    pub fn into_pairs(self, alloc: Global) -> Result<Pairs, AllocError>
        requires kept { KeysAreKept self.key self.groups }
        requires one_type { HasOneKeyType self.groups }
        ensures { IfOk result (λ pairs. pairs ≡ shown itself list_value
            (finite.entries self.groups)) }
    {
        let GroupsPart {
            alloc: _,
            items: _,
            map,
        } = self;
        match map {
            KeyMap::Numbers(key_kind, lists) => kept_pairs(alloc, key_kind, lists),
            KeyMap::Values(lists) => plain_pairs(alloc, lists),
        }
    }
}

/// Appends an item at a key that is a number.
fn number_in(
    map: &mut KeyMap<ListPart>,
    alloc: Global,
    items: Option<Kind>,
    key_kind: Kind,
    key: i64,
    item: Val,
) -> Result<(), AllocError>
    requires kept { kind_of_keys map.old ≡ Some key_kind }
    requires lists { AreGroupsOf items map.old }
    requires item { IsKeptAs items (view_val item) }
    ensures ok { OnOk result (groups_in map.new ≡ merge_key appended (groups_in map.old)
        (number key_kind key) (view_val item ∷ [])) }
    ensures err { OnErr result (groups_in map.new ≡ groups_in map.old) }
    ensures lists { AreGroupsOf items map.new }
    ensures kept { kind_of_keys map.new ≡ kind_of_keys map.old }
{
    match map {
        KeyMap::Numbers(_, lists) => match push_at(alloc, lists, items, key, item) {
            Ok(()) => return Ok(()),
            Err(e) => return Err(e),
        },
        KeyMap::Values(_) => unreachable!(),
    }
}

/// Appends an item at a key that is kept as a value.
fn value_in(
    map: &mut KeyMap<ListPart>,
    alloc: Global,
    items: Option<Kind>,
    key: Val,
    item: Val,
) -> Result<(), AllocError>
    requires kept { kind_of_keys map.old ≡ None }
    requires lists { AreGroupsOf items map.old }
    requires key { IsKey (view_val key) }
    requires item { IsKeptAs items (view_val item) }
    ensures ok { OnOk result (groups_in map.new ≡ merge_key appended (groups_in map.old)
        (view_val key) (view_val item ∷ [])) }
    ensures err { OnErr result (groups_in map.new ≡ groups_in map.old) }
    ensures lists { AreGroupsOf items map.new }
    ensures kept { kind_of_keys map.new ≡ kind_of_keys map.old }
{
    match map {
        KeyMap::Numbers(_, _) => unreachable!(),
        KeyMap::Values(lists) => match push_at(alloc, lists, items, Key::new(key), item) {
            Ok(()) => return Ok(()),
            Err(e) => return Err(e),
        },
    }
}

/// Appends items at a key that is a number.
fn list_in_numbers(
    map: &mut KeyMap<ListPart>,
    items: Option<Kind>,
    key_kind: Kind,
    key: i64,
    list: ListPart,
) -> Result<(), AllocError>
    requires kept { kind_of_keys map.old ≡ Some key_kind }
    requires lists { AreGroupsOf items map.old }
    requires items { kind_of_items list ≡ items }
    ensures ok { OnOk result (groups_in map.new ≡ merge_key appended (groups_in map.old)
        (number key_kind key) (items_of_list list)) }
    ensures lists { AreGroupsOf items map.new }
    ensures kept { kind_of_keys map.new ≡ kind_of_keys map.old }
{
    match map {
        KeyMap::Numbers(_, lists) => match append_at(lists, items, key, list) {
            Ok(()) => return Ok(()),
            Err(e) => return Err(e),
        },
        KeyMap::Values(_) => unreachable!(),
    }
}

/// Appends items at a key that is kept as a value.
fn list_in_values(
    map: &mut KeyMap<ListPart>,
    items: Option<Kind>,
    key: Val,
    list: ListPart,
) -> Result<(), AllocError>
    requires kept { kind_of_keys map.old ≡ None }
    requires lists { AreGroupsOf items map.old }
    requires key { IsKey (view_val key) }
    requires items { kind_of_items list ≡ items }
    ensures ok { OnOk result (groups_in map.new ≡ merge_key appended (groups_in map.old)
        (view_val key) (items_of_list list)) }
    ensures lists { AreGroupsOf items map.new }
    ensures kept { kind_of_keys map.new ≡ kind_of_keys map.old }
{
    match map {
        KeyMap::Numbers(_, _) => unreachable!(),
        KeyMap::Values(lists) => match append_at(lists, items, Key::new(key), list) {
            Ok(()) => return Ok(()),
            Err(e) => return Err(e),
        },
    }
}

/// Appends the lists of a later map at their keys.
fn all_in(
    map: &mut KeyMap<ListPart>,
    items: Option<Kind>,
    later: KeyMap<ListPart>,
) -> Result<(), AllocError>
    requires kept { kind_of_keys map.old ≡ kind_of_keys later }
    requires lists { AreGroupsOf items map.old }
    requires later { AreGroupsOf items later }
    ensures ok { OnOk result (groups_in map.new ≡ join_maps appended (groups_in map.old)
        (groups_in later)) }
    ensures lists { AreGroupsOf items map.new }
    ensures kept { kind_of_keys map.new ≡ kind_of_keys map.old }
{
    match (map, later) {
        (KeyMap::Numbers(_, lists), KeyMap::Numbers(_, more)) => match append_all(
            lists, items, more,
        ) {
            Ok(()) => return Ok(()),
            Err(e) => return Err(e),
        },
        (KeyMap::Values(lists), KeyMap::Values(more)) => match append_all(lists, items, more) {
            Ok(()) => return Ok(()),
            Err(e) => return Err(e),
        },
        _ => unreachable!(),
    }
}

/// Appends the lists of a map at their keys.
fn add_map(part: &mut GroupsPart, alloc: Global, map: &KeyMap<ListPart>) -> Result<(), AllocError>
    requires kept { KeysAreKept (kind_of_keys map.now) (groups_in map.now) }
    requires lists { CanKeepEach part.old.items (all_lists map.now) }
    requires key { CanKeep part.old.key (kind_of_keys map.now) }
    ensures ok { OnOk result (part.new.groups ≡ join_maps appended part.old.groups
        (groups_in map.now)) }
    ensures key { part.new.key ≡ part.old.key }
    ensures items { part.new.items ≡ part.old.items }
{
    match map {
        KeyMap::Numbers(key_kind, lists) => add_sorted_numbers(part, alloc, *key_kind, lists),
        KeyMap::Values(lists) => add_sorted_values(part, alloc, lists),
    }
}

/// The same of keys that are numbers, which lie in the range of their kind.
fn add_sorted_numbers(
    part: &mut GroupsPart,
    alloc: Global,
    key_kind: Kind,
    map: &IndexMap<i64, ListPart>,
) -> Result<(), AllocError>
    requires kept { KeysAreKept (Some key_kind) (map_of (number key_kind)
        (lists_in map.now.entries)) }
    requires lists { CanKeepEach part.old.items (values_of map.now.entries) }
    requires key { CanKeep part.old.key (Some key_kind) }
    ensures ok { OnOk result (part.new.groups ≡ join_maps appended part.old.groups
        (map_of (number key_kind) (lists_in map.now.entries))) }
    ensures key { part.new.key ≡ part.old.key }
    ensures items { part.new.items ≡ part.old.items }
{
    let _count = map.len();
    add_numbers(part, alloc, key_kind, map)
}

/// The same of keys that are kept as values.
fn add_sorted_values(
    part: &mut GroupsPart,
    alloc: Global,
    map: &IndexMap<Key, ListPart>,
) -> Result<(), AllocError>
    requires lists { CanKeepEach part.old.items (values_of map.now.entries) }
    requires key { part.old.key ≡ None }
    ensures ok { OnOk result (part.new.groups ≡ join_maps appended part.old.groups
        (map_of itself (lists_in map.now.entries))) }
    ensures key { part.new.key ≡ part.old.key }
    ensures items { part.new.items ≡ part.old.items }
{
    let _count = map.len();
    add_values(part, alloc, map)
}

/// Appends lists at keys that are numbers, one after another.
fn add_numbers(
    part: &mut GroupsPart,
    alloc: Global,
    key_kind: Kind,
    map: &IndexMap<i64, ListPart>,
) -> Result<(), AllocError>
    requires keys { AllInRange key_kind (keys_of map.now.entries) }
    requires lists { CanKeepEach part.old.items (values_of map.now.entries) }
    requires key { CanKeep part.old.key (Some key_kind) }
    ensures ok { OnOk result (part.new.groups ≡ merged_from appended part.old.groups
        (by_value (number key_kind) (lists_in map.now.entries))) }
    ensures key { part.new.key ≡ part.old.key }
    ensures items { part.new.items ≡ part.old.items }
{
    for (key, list) in map {
        let copy = copy_of(alloc, list, part.items())?;
        match part.append_at_value(number_of(key_kind, *key), copy) {
            Ok(()) => {}
            Err(e) => return Err(e),
        }
    }
    Ok(())
}

/// Appends lists at keys that are values, one after another.
fn add_values(
    part: &mut GroupsPart,
    alloc: Global,
    map: &IndexMap<Key, ListPart>,
) -> Result<(), AllocError>
    requires lists { CanKeepEach part.old.items (values_of map.now.entries) }
    requires key { part.old.key ≡ None }
    ensures ok { OnOk result (part.new.groups ≡ merged_from appended part.old.groups
        (by_value itself (lists_in map.now.entries))) }
    ensures key { part.new.key ≡ part.old.key }
    ensures items { part.new.items ≡ part.old.items }
{
    for (key, list) in map {
        match add_copy(part, alloc, key, list) {
            Ok(()) => {}
            Err(e) => return Err(e),
        }
    }
    Ok(())
}

/// Appends a list at a key that is a value.
fn add_copy(
    part: &mut GroupsPart,
    alloc: Global,
    key: &Key,
    list: &ListPart,
) -> Result<(), AllocError>
    requires list { CanKeep part.old.items (kind_of_items list.now) }
    requires key { part.old.key ≡ None }
    ensures ok { OnOk result (part.new.groups ≡ merge_key appended part.old.groups key.now
        (items_of_list list.now)) }
    ensures key { part.new.key ≡ part.old.key }
    ensures items { part.new.items ≡ part.old.items }
{
    let copy = copy_of(alloc, list, part.items())?;
    let value = key.to_value(alloc)?;
    part.append_at_value(value, copy)
}

/// A number of a kind that lies within an i64.
fn narrow(kind: Kind, x: i128) -> i64
    requires narrow { IsNarrow kind }
    requires in_range { InRange kind x }
    ensures { result ≡ x }
{
    x as i64
}

/// A list of the same items, which are to be kept so.
fn copy_of(alloc: Global, list: &ListPart, items: Option<Kind>) -> Result<ListPart, AllocError>
    requires { CanKeep items (kind_of_items list.now) }
    ensures items { IfOk result (λ copy. items_of_list copy ≡ items_of_list list.now) }
    ensures kind { IfOk result (λ copy. kind_of_items copy ≡ items) }
{
    match items {
        Some(_) => list.copy(alloc),
        None => list.to_values(alloc),
    }
}

/// How groups are kept: their keys, and the items of their lists.
#[derive(Clone, Copy, Debug, PartialEq, Eq)]
pub struct GroupsShape {
    pub key: Option<Kind>,
    pub items: Option<Kind>,
}

/// An item for the list of a key.
#[derive(Debug, Drop)]
pub struct GroupsItem {
    pub key: Val,
    pub value: Val,
}

impl Part for GroupsPart {
    ghost use Rattle.std.specs.Prelude.{refl};
    ghost use Rattle.weld_data.specs.Value.{struct, and_value, no_values};
    ghost use Rattle.weld_data.specs.View.{view_val};
    ghost use Rattle.weld_builders.specs.Builder.{one_part, item};
    ghost use Rattle.weld_groups.specs.Groups.{part_of_groups};
    ghost use Rattle.weld_pieces.specs.Keyed.{KeysAreKept, HasOneKeyType};
    ghost use Rattle.weld_pieces.specs.Kept.{kept_groups, IsNarrowKey};

    type Shape = GroupsShape;

    type Item = GroupsItem;

    type Out = Val;

    ghost builder = { λ g. one_part (part_of_groups g) };

    ghost kept = { λ g. kept_groups g.key g.items };

    ghost kept_from = { λ s. kept_groups s.key s.items };

    ghost is_shape = { λ s. IsNarrowKey s.key };

    ghost as_item = { λ i. item (struct (and_value (view_val i.key) (and_value (view_val i.value) no_values))) };

    ghost out = { view_val };

    ghost spare = { λ _. 0 };

    ghost finishes = { λ g. KeysAreKept g.key g.groups × HasOneKeyType g.groups };

    fn start(alloc: Global, shape: &GroupsShape) -> Result<GroupsPart, AllocError> {
        Ok(GroupsPart::empty(alloc, shape.key, shape.items))
    }

    fn merge(&mut self, item: GroupsItem) -> Result<(), Stop> {
        let GroupsItem { key, value } = item;
        match self.push_at_value(key, value) {
            Ok(()) => Ok(()),
            Err(_) => Err(Stop::Memory),
        }
    }

    fn join(&mut self, later: GroupsPart) -> Result<(), AllocError> {
        self.append(later)
    }

    fn finish(self, alloc: Global) -> Result<Val, AllocError> {
        Ok(Val::Dict(self.into_pairs(alloc)?))
    }

    ghost bare_is = { λ g. refl };
}
