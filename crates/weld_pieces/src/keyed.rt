ghost use Rattle.std.specs.Prelude.{◌≡◌, Some, None, OnOk, OnErr};
ghost use Rattle.weld_data.specs.Value.{number};
ghost use Rattle.weld_data.specs.View.{view_val};
ghost use Rattle.weld_data.specs.Kind.{InRange};
ghost use Rattle.weld_builders.specs.Part.{combined, merge_key, join_maps};
ghost use Rattle.weld_data.specs.Order.{IsKey};
ghost use Rattle.std.specs.Map.{keys_of, values_of};
ghost use Rattle.weld_builders.specs.Range.{AllInRange};
ghost use Rattle.weld_pieces.specs.Keyed.{map_of, itself, by_value, merged_from, CanKeep, KeysAreKept};
ghost use Rattle.weld_pieces.specs.KeyMapView.{kind_of_keys};
ghost use Rattle.weld_pieces.specs.KeyedView.{numbers_in, IsKeyed};

use crate::key::Key;
use crate::key_map::KeyMap;
use crate::many::many_in;
use crate::number::narrow;
use crate::ordered::{merge_all, merge_at};
use crate::pairs::{kept_pairs, key_of, plain_pairs};
use crate::part::Part;
use indexmap::IndexMap;
use std::alloc::{AllocError, Global};
use std::marker::Model;
use weld_data::{Kind, MergeOp, Num, Pairs, Stop, Val};

/// Numbers of an integer kind by keys, combined by an operator. Keys that are one number of a kind
/// whose numbers lie within an i64 are kept as numbers, so that a merge at such a key makes no value.
#[derive(Drop)]
pub struct KeyedPart {
    op: MergeOp,
    kind: Kind,
    map: KeyMap<i128>,
}

impl Model for KeyedPart {
    ghost use Rattle.weld_pieces.specs.Keyed.{Keyed, coded_keyed};

    ghost Value = { Keyed };

    ghost coded = { coded_keyed };

    ghost use Rattle.weld_pieces.specs.KeyMapView.{kind_of_keys};
    ghost use Rattle.weld_pieces.specs.KeyedView.{numbers_in, IsKeyed};

    ghost view = { λ k. record { key = kind_of_keys k.map; op = k.op; kind = k.kind; numbers = numbers_in k.map } };

    ghost invariant = { λ k. IsKeyed k.kind k.map };
}

impl KeyedPart {
    ghost use Rattle.std.specs.Prelude.{◌≡◌, Some, None, IsTrue, IfOk, OnOk, OnErr, length, zip};
    ghost use Rattle.std.specs.FinMap as finite;
    ghost use Rattle.weld_data.specs.Value.{number};
    ghost use Rattle.weld_data.specs.View.{view_val};
    ghost use Rattle.weld_data.specs.Kind.{IsInteger, IsNarrow, InRange};
    ghost use Rattle.weld_builders.specs.Part.{combined, merge_key, join_maps};
    ghost use Rattle.weld_builders.specs.Range.{AllInRange};
    ghost use Rattle.weld_pieces.specs.Keyed.{Keyed, KeysAreKept, HasOneKeyType, itself, shown, CanKeep, by_value, merged_from};
    ghost use Rattle.weld_data.specs.Order.{IsKey};
    ghost use Rattle.weld_pieces.specs.Kept.{IsKeptKey, IsNarrowKey};

    /// The map without keys, which are to be numbers of a kind, or other values. It takes no memory.
    pub fn empty(alloc: Global, key: Option<Kind>, op: MergeOp, kind: Kind) -> KeyedPart
        requires integer { IsInteger kind }
        requires narrow { IsNarrowKey key }
        ensures key { result.key ≡ key }
        ensures op { result.op ≡ op }
        ensures kind { result.kind ≡ kind }
        ensures numbers { result.numbers ≡ finite.empty }
    {
        let map = KeyMap::empty(alloc, key);
        KeyedPart { op, kind, map }
    }

    /// How the keys are kept: as numbers of a kind, or as values. It takes no memory.
    pub fn key(&self) -> Option<Kind>
        ensures key { result ≡ self.now.key }
        ensures narrow { IsNarrowKey self.now.key }
    {
        self.map.key()
    }

    /// How it is kept. It takes no memory.
    pub fn shape(&self) -> KeyedShape
        ensures key { result.key ≡ self.now.key }
        ensures op { result.op ≡ self.now.op }
        ensures kind { result.kind ≡ self.now.kind }
        ensures integer { IsInteger self.now.kind }
        ensures narrow { IsNarrowKey self.now.key }
    {
        KeyedShape {
            key: self.key(),
            op: self.op,
            kind: self.kind,
        }
    }

    /// Whether there are no keys. It takes no memory.
    pub fn is_empty(&self) -> bool
        ensures none { IsTrue result → self.now.numbers ≡ finite.empty }
    {
        self.map.is_empty()
    }

    /// A part that has the same numbers. Its keys are to be kept as they are here, or as values.
    pub fn copy_as(&self, alloc: Global, key: Option<Kind>) -> Result<KeyedPart, AllocError>
        requires kept { KeysAreKept self.now.key self.now.numbers }
        requires key { CanKeep key self.now.key }
        ensures key { IfOk result (λ copy. copy.key ≡ key) }
        ensures op { IfOk result (λ copy. copy.op ≡ self.now.op) }
        ensures kind { IfOk result (λ copy. copy.kind ≡ self.now.kind) }
        ensures numbers { IfOk result (λ copy. copy.numbers ≡ self.now.numbers) }
    {
        let mut copy = KeyedPart::empty(alloc, key, self.op, self.kind);
        match add_map(&mut copy, alloc, &self.map) {
            Ok(()) => Ok(copy),
            Err(e) => Err(e),
        }
    }

    /// Merges a number at a key that is a number. It takes memory for a new key alone; where that is
    /// wanting, the part stays as it was.
    pub fn merge_number(&mut self, key_kind: Kind, key: i64, x: i128) -> Result<(), AllocError>
        requires kept { self.old.key ≡ Some key_kind }
        requires key { InRange key_kind key }
        requires in_range { InRange self.old.kind x }
        ensures ok { OnOk result (self.new.numbers ≡ merge_key (combined self.old.op self.old.kind)
            self.old.numbers (number key_kind key) x) }
        ensures err { OnErr result (self.new.numbers ≡ self.old.numbers) }
        ensures key { self.new.key ≡ self.old.key }
        ensures op { self.new.op ≡ self.old.op }
        ensures kind { self.new.kind ≡ self.old.kind }
    {
        number_in(&mut self.map, self.op, self.kind, key_kind, key, x)
    }

    /// Merges numbers at keys that are numbers, the first one first. It takes memory for new keys alone;
    /// where that is wanting, it has merged some of them.
    pub fn merge_numbers(
        &mut self,
        key_kind: Kind,
        keys: &[i64],
        numbers: &[i64],
    ) -> Result<(), AllocError>
        requires kept { self.old.key ≡ Some key_kind }
        requires keys { AllInRange key_kind keys.now }
        requires narrow { IsNarrow self.old.kind }
        requires in_range { AllInRange self.old.kind numbers.now }
        requires count { length keys.now ≡ length numbers.now }
        ensures ok { OnOk result (self.new.numbers
            ≡ merged_from (combined self.old.op self.old.kind) self.old.numbers
            (by_value (number key_kind) (zip keys.now numbers.now))) }
        ensures key { self.new.key ≡ self.old.key }
        ensures op { self.new.op ≡ self.old.op }
        ensures kind { self.new.kind ≡ self.old.kind }
    {
        many_in(&mut self.map, self.op, self.kind, key_kind, keys, numbers)
    }

    /// Merges a number at a key that is kept as a value. Memory is as for a key that is a number.
    pub fn merge_value(&mut self, key: Val, x: i128) -> Result<(), AllocError>
        requires kept { self.old.key ≡ None }
        requires key { IsKey (view_val key) }
        requires in_range { InRange self.old.kind x }
        ensures ok { OnOk result (self.new.numbers ≡ merge_key (combined self.old.op self.old.kind)
            self.old.numbers (view_val key) x) }
        ensures err { OnErr result (self.new.numbers ≡ self.old.numbers) }
        ensures key { self.new.key ≡ self.old.key }
        ensures op { self.new.op ≡ self.old.op }
        ensures kind { self.new.kind ≡ self.old.kind }
    {
        value_in(&mut self.map, self.op, self.kind, key, x)
    }

    /// Merges a number at a key, however the keys are kept. Memory is as for a key that is a number.
    pub fn merge_at_value(&mut self, key: Val, x: i128) -> Result<(), AllocError>
        requires key { IsKeptKey self.old.key (view_val key) }
        requires in_range { InRange self.old.kind x }
        ensures ok { OnOk result (self.new.numbers ≡ merge_key (combined self.old.op self.old.kind)
            self.old.numbers (view_val key) x) }
        ensures err { OnErr result (self.new.numbers ≡ self.old.numbers) }
        ensures key { self.new.key ≡ self.old.key }
        ensures op { self.new.op ≡ self.old.op }
        ensures kind { self.new.kind ≡ self.old.kind }
    {
        match self.key() {
            Some(kind) => match key {
                Val::Num(n) => self.merge_number(kind, narrow(kind, n.value), x),
                _ => unreachable!(),
            },
            None => self.merge_value(key, x),
        }
    }

    /// The dictionary of the keys and numbers. The keys are of one type, and those that are numbers
    /// lie in the range of their kind.
    pub fn into_pairs(self, alloc: Global) -> Result<Pairs, AllocError>
        requires kept { KeysAreKept self.key self.numbers }
        requires one_type { HasOneKeyType self.numbers }
        ensures { IfOk result (λ pairs. pairs ≡ shown itself (number self.kind)
            (finite.entries self.numbers)) }
    {
        let KeyedPart { op: _, kind, map } = self;
        match map {
            KeyMap::Numbers(key_kind, numbers) => kept_pairs(alloc, key_kind, kind, numbers),
            KeyMap::Values(values) => plain_pairs(alloc, kind, values),
        }
    }

    /// Merges the numbers of a later part of the same operator and kinds at their keys. After want of
    /// memory it has merged some of them.
    pub fn append(&mut self, later: KeyedPart) -> Result<(), AllocError>
        requires key { self.old.key ≡ later.key }
        requires kind { self.old.kind ≡ later.kind }
        ensures ok { OnOk result (self.new.numbers ≡ join_maps (combined self.old.op self.old.kind)
            self.old.numbers later.numbers) }
        ensures key { self.new.key ≡ self.old.key }
        ensures op { self.new.op ≡ self.old.op }
        ensures kind { self.new.kind ≡ self.old.kind }
    {
        let KeyedPart {
            op: _,
            kind: _,
            map: more,
        } = later;
        all_in(&mut self.map, self.op, self.kind, more)
    }
}

/// Merges a number at a key that is a number.
#[inline(always)]
fn number_in(
    map: &mut KeyMap<i128>,
    op: MergeOp,
    kind: Kind,
    key_kind: Kind,
    key: i64,
    x: i128,
) -> Result<(), AllocError>
    requires kept { kind_of_keys map.old ≡ Some key_kind }
    requires keyed { IsKeyed kind map.old }
    requires in_range { InRange kind x }
    ensures ok { OnOk result (numbers_in map.new ≡ merge_key (combined op kind) (numbers_in map.old)
        (number key_kind key) x) }
    ensures err { OnErr result (numbers_in map.new ≡ numbers_in map.old) }
    ensures keyed { IsKeyed kind map.new }
    ensures kept { kind_of_keys map.new ≡ kind_of_keys map.old }
{
    match map {
        KeyMap::Numbers(_, numbers) => match merge_at(numbers, op, kind, key, x) {
            Ok(()) => return Ok(()),
            Err(e) => return Err(e),
        },
        KeyMap::Values(_) => unreachable!(),
    }
}

/// Merges a number at a key that is kept as a value.
fn value_in(
    map: &mut KeyMap<i128>,
    op: MergeOp,
    kind: Kind,
    key: Val,
    x: i128,
) -> Result<(), AllocError>
    requires kept { kind_of_keys map.old ≡ None }
    requires keyed { IsKeyed kind map.old }
    requires key { IsKey (view_val key) }
    requires in_range { InRange kind x }
    ensures ok { OnOk result (numbers_in map.new ≡ merge_key (combined op kind) (numbers_in map.old)
        (view_val key) x) }
    ensures err { OnErr result (numbers_in map.new ≡ numbers_in map.old) }
    ensures keyed { IsKeyed kind map.new }
    ensures kept { kind_of_keys map.new ≡ kind_of_keys map.old }
{
    match map {
        KeyMap::Numbers(_, _) => unreachable!(),
        KeyMap::Values(values) => match merge_at(values, op, kind, Key::new(key), x) {
            Ok(()) => return Ok(()),
            Err(e) => return Err(e),
        },
    }
}

/// Merges the numbers of a later map at their keys.
fn all_in(
    map: &mut KeyMap<i128>,
    op: MergeOp,
    kind: Kind,
    later: KeyMap<i128>,
) -> Result<(), AllocError>
    requires kept { kind_of_keys map.old ≡ kind_of_keys later }
    requires keyed { IsKeyed kind map.old }
    requires later { IsKeyed kind later }
    ensures ok { OnOk result (numbers_in map.new ≡ join_maps (combined op kind) (numbers_in map.old)
        (numbers_in later)) }
    ensures keyed { IsKeyed kind map.new }
    ensures kept { kind_of_keys map.new ≡ kind_of_keys map.old }
{
    match (map, later) {
        (KeyMap::Numbers(_, numbers), KeyMap::Numbers(_, more)) => match merge_all(
            numbers, op, kind, more,
        ) {
            Ok(()) => return Ok(()),
            Err(e) => return Err(e),
        },
        (KeyMap::Values(values), KeyMap::Values(more)) => match merge_all(values, op, kind, more) {
            Ok(()) => return Ok(()),
            Err(e) => return Err(e),
        },
        _ => unreachable!(),
    }
}

/// Merges the numbers of a map at their keys.
fn add_map(part: &mut KeyedPart, alloc: Global, map: &KeyMap<i128>) -> Result<(), AllocError>
    requires kept { KeysAreKept (kind_of_keys map.now) (numbers_in map.now) }
    requires keyed { IsKeyed part.old.kind map.now }
    requires key { CanKeep part.old.key (kind_of_keys map.now) }
    ensures ok { OnOk result (part.new.numbers ≡ join_maps (combined part.old.op part.old.kind)
        part.old.numbers (numbers_in map.now)) }
    ensures key { part.new.key ≡ part.old.key }
    ensures op { part.new.op ≡ part.old.op }
    ensures kind { part.new.kind ≡ part.old.kind }
{
    match map {
        KeyMap::Numbers(key_kind, numbers) => add_sorted_numbers(part, *key_kind, numbers),
        KeyMap::Values(values) => add_sorted_values(part, alloc, values),
    }
}

/// The same of keys that are numbers, which lie in the range of their kind.
fn add_sorted_numbers(
    part: &mut KeyedPart,
    key_kind: Kind,
    map: &IndexMap<i64, i128>,
) -> Result<(), AllocError>
    requires kept { KeysAreKept (Some key_kind) (map_of (number key_kind) map.now.entries) }
    requires values { AllInRange part.old.kind (values_of map.now.entries) }
    requires key { CanKeep part.old.key (Some key_kind) }
    ensures ok { OnOk result (part.new.numbers ≡ join_maps (combined part.old.op part.old.kind)
        part.old.numbers (map_of (number key_kind) map.now.entries)) }
    ensures key { part.new.key ≡ part.old.key }
    ensures op { part.new.op ≡ part.old.op }
    ensures kind { part.new.kind ≡ part.old.kind }
{
    let _count = map.len();
    add_numbers(part, key_kind, map)
}

/// The same of keys that are kept as values.
fn add_sorted_values(
    part: &mut KeyedPart,
    alloc: Global,
    map: &IndexMap<Key, i128>,
) -> Result<(), AllocError>
    requires values { AllInRange part.old.kind (values_of map.now.entries) }
    requires key { part.old.key ≡ None }
    ensures ok { OnOk result (part.new.numbers ≡ join_maps (combined part.old.op part.old.kind)
        part.old.numbers (map_of itself map.now.entries)) }
    ensures key { part.new.key ≡ part.old.key }
    ensures op { part.new.op ≡ part.old.op }
    ensures kind { part.new.kind ≡ part.old.kind }
{
    let _count = map.len();
    add_values(part, alloc, map)
}

/// Merges numbers at keys that are numbers, one after another.
fn add_numbers(
    part: &mut KeyedPart,
    key_kind: Kind,
    map: &IndexMap<i64, i128>,
) -> Result<(), AllocError>
    requires keys { AllInRange key_kind (keys_of map.now.entries) }
    requires values { AllInRange part.old.kind (values_of map.now.entries) }
    requires key { CanKeep part.old.key (Some key_kind) }
    ensures ok { OnOk result (part.new.numbers ≡ merged_from (combined part.old.op part.old.kind)
        part.old.numbers (by_value (number key_kind) map.now.entries)) }
    ensures key { part.new.key ≡ part.old.key }
    ensures op { part.new.op ≡ part.old.op }
    ensures kind { part.new.kind ≡ part.old.kind }
{
    for (key, x) in map {
        match part.merge_at_value(key_of(key_kind, *key), *x) {
            Ok(()) => {}
            Err(e) => return Err(e),
        }
    }
    Ok(())
}

/// Merges numbers at keys that are values, one after another.
fn add_values(
    part: &mut KeyedPart,
    alloc: Global,
    map: &IndexMap<Key, i128>,
) -> Result<(), AllocError>
    requires values { AllInRange part.old.kind (values_of map.now.entries) }
    requires key { part.old.key ≡ None }
    ensures ok { OnOk result (part.new.numbers ≡ merged_from (combined part.old.op part.old.kind)
        part.old.numbers (by_value itself map.now.entries)) }
    ensures key { part.new.key ≡ part.old.key }
    ensures op { part.new.op ≡ part.old.op }
    ensures kind { part.new.kind ≡ part.old.kind }
{
    for (key, x) in map {
        let value = key.to_value(alloc)?;
        match part.merge_value(value, *x) {
            Ok(()) => {}
            Err(e) => return Err(e),
        }
    }
    Ok(())
}

/// How a keyed part is kept.
#[derive(Clone, Copy, Debug, PartialEq, Eq)]
pub struct KeyedShape {
    pub key: Option<Kind>,
    pub op: MergeOp,
    pub kind: Kind,
}

/// A number for a key.
#[derive(Debug, Drop)]
pub struct KeyedItem {
    pub key: Val,
    pub number: Num,
}

impl Part for KeyedPart {
    ghost use Rattle.std.specs.Prelude.{refl};
    ghost use Rattle.weld_data.specs.Kind.{IsInteger};
    ghost use Rattle.weld_data.specs.Value.{number, struct, and_value, no_values};
    ghost use Rattle.weld_data.specs.View.{view_val};
    ghost use Rattle.weld_builders.specs.Builder.{one_part, item};
    ghost use Rattle.weld_pieces.specs.Keyed.{part_of_keyed, KeysAreKept, HasOneKeyType};
    ghost use Rattle.weld_pieces.specs.Kept.{kept_keyed, IsNarrowKey};

    type Shape = KeyedShape;

    type Item = KeyedItem;

    type Out = Val;

    ghost builder = { λ k. one_part (part_of_keyed k) };

    ghost kept = { λ k. kept_keyed k.key k.op k.kind };

    ghost kept_from = { λ s. kept_keyed s.key s.op s.kind };

    ghost is_shape = { λ s. IsInteger s.kind × IsNarrowKey s.key };

    ghost as_item = { λ i. item (struct (and_value (view_val i.key) (and_value (number i.number.kind i.number.value) no_values))) };

    ghost out = { view_val };

    ghost spare = { λ _. 0 };

    ghost finishes = { λ k. KeysAreKept k.key k.numbers × HasOneKeyType k.numbers };

    fn start(alloc: Global, shape: &KeyedShape) -> Result<KeyedPart, AllocError> {
        Ok(KeyedPart::empty(alloc, shape.key, shape.op, shape.kind))
    }

    fn merge(&mut self, item: KeyedItem) -> Result<(), Stop> {
        let KeyedItem { key, number } = item;
        match self.merge_at_value(key, number.value) {
            Ok(()) => Ok(()),
            Err(_) => Err(Stop::Memory),
        }
    }

    fn join(&mut self, later: KeyedPart) -> Result<(), AllocError> {
        self.append(later)
    }

    fn finish(self, alloc: Global) -> Result<Val, AllocError> {
        Ok(Val::Dict(self.into_pairs(alloc)?))
    }

    ghost bare_is = { λ k. refl };
}
