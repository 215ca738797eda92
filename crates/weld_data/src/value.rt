//! Values: numbers, lists, structs and dictionaries, and the lists of them.

mod copy;
mod lookup;
mod order;

use crate::i8s::I8s;
use crate::items::{Bools, I16s, I32s, I64s, U8s, U16s, U32s, U64s};
use crate::num::Num;
use crate::structs::Structs;
pub use order::compare_keys;
use std::alloc::{AllocError, Global};
use std::marker::Model;

/// A value of a program: a number, a list, a struct or a dictionary.
#[cycle(value)]
#[derive(Debug, Drop)]
pub enum Val {
    Num(Num),
    List(Column),
    Struct(Vals),
    Dict(Pairs),
}

/// The elements of a list value. A list of numbers keeps them in an array of their kind, one of structs of numbers may keep the
/// numbers.
#[cycle(value)]
#[derive(Debug, Drop)]
pub enum Column {
    Bool(Bools),
    I8(I8s),
    I16(I16s),
    I32(I32s),
    I64(I64s),
    U8(U8s),
    U16(U16s),
    U32(U32s),
    U64(U64s),
    Structs(Structs),
    Nest(Vals),
}

/// A key and its value in a dictionary.
#[cycle(value)]
#[derive(Debug, Drop)]
pub struct Pair {
    pub key: Val,
    pub value: Val,
}

/// A list of values.
#[cycle(value)]
#[derive(Debug, Drop)]
pub struct Vals {
    items: Vec<Val>,
}

impl Model for Vals {
    ghost use Rattle.std.specs.Prelude.{map};
    ghost use Rattle.weld_data.specs.Value.{ValueList};
    ghost use Rattle.weld_data.specs.ValueCode.{coded_values};

    ghost Value = { ValueList };

    ghost coded = { coded_values };

    ghost use Rattle.weld_data.specs.View.{view_val};

    ghost view = { λ a. map view_val a.items.items };

    ghost use Rattle.weld_data.specs.Depth.{depth_of_list};

    ghost size = { depth_of_list };

    ghost use Rattle.weld_data.specs.Deeper.{most_le-depth_vals};
    ghost use Rattle.std.proofs.Common.{arith};

    ghost size_decreases = { λ a h. Prim.omega (arith, most_le-depth_vals a.items.items) };
}

/// The entries of a dictionary: each key is one, and they strictly rise and are of one key type.
#[cycle(value)]
#[derive(Debug, Drop)]
pub struct Pairs {
    items: Vec<Pair>,
}

impl Model for Pairs {
    ghost use Rattle.std.specs.Prelude.{map};
    ghost use Rattle.weld_data.specs.Value.{EntryList};
    ghost use Rattle.weld_data.specs.ValueCode.{coded_entries};

    ghost Value = { EntryList };

    ghost coded = { coded_entries };

    ghost use Rattle.weld_data.specs.View.{view_pair};
    ghost use Rattle.weld_data.specs.Order.{Rises};

    ghost view = { λ a. map view_pair a.items.items };

    ghost invariant = { λ a. Rises (map view_pair a.items.items) };

    ghost use Rattle.weld_data.specs.Depth.{depth_of_pairs};

    ghost size = { depth_of_pairs };

    ghost use Rattle.weld_data.specs.Deeper.{most_le-depth_pairs};
    ghost use Rattle.std.proofs.Common.{arith};

    ghost size_decreases = { λ a h. Prim.omega (arith, most_le-depth_pairs a.items.items) };
}

impl Vals {
    ghost use Rattle.std.specs.Prelude.{◌≡◌, ◌==◌, ◌<◌, [], ◌∷◌, ◌++◌, length, map, slice_get, Some, OnOk, OnErr};
    ghost use Rattle.weld_data.specs.View.{view_val};

    /// The list without values. It takes no memory.
    pub fn new(alloc: Global) -> Vals
        ensures { result ≡ [] }
    {
        Vals {
            items: Vec::new(alloc),
        }
    }

    /// The list of these values, which it keeps. It takes no memory.
    pub fn from_vec(items: Vec<Val>) -> Vals
        ensures { result ≡ map view_val items.items }
    {
        Vals { items }
    }

    /// The values, given up. It takes no memory.
    pub fn into_vec(self) -> Vec<Val>
        ensures { map view_val result.items ≡ self }
    {
        let Vals { items } = self;
        items
    }

    /// The values.
    pub fn as_slice(&self) -> &[Val]
        ensures { map view_val result.now ≡ self.now }
    {
        self.items.as_slice()
    }

    /// The value at an index, from 0.
    pub fn at(&self, index: usize) -> &Val
        requires { index < length self.now }
        ensures { slice_get self.now index ≡ Some (view_val result.now) }
    {
        &self.items[index]
    }

    /// How many values there are.
    pub fn len(&self) -> usize
        ensures { result ≡ length self.now }
    {
        self.items.len()
    }

    /// Whether there is no value.
    pub fn is_empty(&self) -> bool
        ensures { result ≡ (length self.now == 0) }
    {
        self.items.is_empty()
    }

    /// Appends a value. Where memory is wanting, the list stays as it was and the value is dropped.
    pub fn push(&mut self, item: Val) -> Result<(), AllocError>
        ensures ok { OnOk result (self.new ≡ self.old ++ view_val item ∷ []) }
        ensures err { OnErr result (self.new ≡ self.old) }
    {
        self.items.push(item)?;
        Ok(())
    }
}

impl Pairs {
    ghost use Rattle.std.specs.Prelude.{◌≡◌, ◌==◌, ◌<◌, ◌∷◌, ◌++◌, [], length, map, slice_get, Some, OnOk, OnErr};
    ghost use Rattle.weld_data.specs.View.{view_val, view_pair};
    ghost use Rattle.weld_data.specs.Order.{Rises, CanFollow};

    /// The dictionary without entries. It takes no memory.
    pub fn new(alloc: Global) -> Pairs
        ensures { result ≡ [] }
    {
        Pairs {
            items: Vec::new(alloc),
        }
    }

    /// The dictionary of these entries, which it keeps; their keys rise. It takes no memory.
    pub fn from_vec(items: Vec<Pair>) -> Pairs
        requires { Rises (map view_pair items.items) }
        ensures { result ≡ map view_pair items.items }
    {
        Pairs { items }
    }

    /// The entries, given up. It takes no memory.
    pub fn into_vec(self) -> Vec<Pair>
        ensures entries { map view_pair result.items ≡ self }
        ensures rises { Rises self }
    {
        let Pairs { items } = self;
        items
    }

    /// The entries, by rising keys.
    pub fn as_slice(&self) -> &[Pair]
        ensures entries { map view_pair result.now ≡ self.now }
        ensures rises { Rises self.now }
    {
        self.items.as_slice()
    }

    /// The entry at an index, from 0.
    pub fn at(&self, index: usize) -> &Pair
        requires { index < length self.now }
        ensures entry { slice_get self.now index ≡ Some (view_pair result.now) }
        ensures rises { Rises self.now }
    {
        &self.items[index]
    }

    /// How many entries there are.
    pub fn len(&self) -> usize
        ensures { result ≡ length self.now }
    {
        self.items.len()
    }

    /// Whether there is no entry.
    pub fn is_empty(&self) -> bool
        ensures { result ≡ (length self.now == 0) }
    {
        self.items.is_empty()
    }

    /// Appends an entry whose key comes after all keys. Where memory is wanting, the dictionary stays as it was and the entry is dropped.
    pub fn push(&mut self, pair: Pair) -> Result<(), AllocError>
        requires { CanFollow self.old (view_val pair.key) }
        ensures ok { OnOk result (self.new ≡ self.old ++ view_pair pair ∷ []) }
        ensures err { OnErr result (self.new ≡ self.old) }
    {
        self.items.push(pair)?;
        Ok(())
    }
}

impl Column {
    ghost use Rattle.std.specs.Prelude.{◌≡◌, ◌==◌, ◌<◌, length, slice_get, Some, IfOk, IfSome};
    ghost use Rattle.weld_data.specs.Value.{number};
    ghost use Rattle.weld_data.specs.Order.{IsNumber};
    ghost use Rattle.weld_data.specs.View.{view_val, view_column};

    /// How many elements there are.
    pub fn len(&self) -> usize
        ensures { result ≡ length (view_column self.now) }
    {
        match self {
            Column::Bool(items) => items.len(),
            Column::I8(items) => items.len(),
            Column::I16(items) => items.len(),
            Column::I32(items) => items.len(),
            Column::I64(items) => items.len(),
            Column::U8(items) => items.len(),
            Column::U16(items) => items.len(),
            Column::U32(items) => items.len(),
            Column::U64(items) => items.len(),
            Column::Structs(items) => items.len(),
            Column::Nest(items) => items.len(),
        }
    }

    /// Whether there is no element.
    pub fn is_empty(&self) -> bool
        ensures { result ≡ (length (view_column self.now) == 0) }
    {
        self.len() == 0
    }

    /// The number at an index, from 0, where a number stands. It takes no memory.
    pub fn number_at(&self, index: usize) -> Num
        requires within { index < length (view_column self.now) }
        requires number { IfSome (slice_get (view_column self.now) index) IsNumber }
        ensures { slice_get (view_column self.now) index ≡ Some (number result.kind result.value) }
    {
        match self {
            Column::Bool(items) => Num::of_bool(items.as_slice()[index]),
            Column::I8(items) => Num::of_i8(items.as_slice()[index]),
            Column::I16(items) => Num::of_i16(items.as_slice()[index]),
            Column::I32(items) => Num::of_i32(items.as_slice()[index]),
            Column::I64(items) => Num::of_i64(items.as_slice()[index]),
            Column::U8(items) => Num::of_u8(items.as_slice()[index]),
            Column::U16(items) => Num::of_u16(items.as_slice()[index]),
            Column::U32(items) => Num::of_u32(items.as_slice()[index]),
            Column::U64(items) => Num::of_u64(items.as_slice()[index]),
            Column::Structs(items) => {
                items.holds_struct(index);
                unreachable!()
            }
            Column::Nest(items) => match items.at(index) {
                Val::Num(number) => *number,
                _ => unreachable!(),
            },
        }
    }

    /// A copy of the element at an index, from 0.
    pub fn copy_at(&self, alloc: Global, index: usize) -> Result<Val, AllocError>
        requires { index < length (view_column self.now) }
        ensures { IfOk result (λ v. slice_get (view_column self.now) index ≡ Some (view_val v)) }
    {
        match self {
            Column::Bool(items) => Ok(Val::Num(Num::of_bool(items.as_slice()[index]))),
            Column::I8(items) => Ok(Val::Num(Num::of_i8(items.as_slice()[index]))),
            Column::I16(items) => Ok(Val::Num(Num::of_i16(items.as_slice()[index]))),
            Column::I32(items) => Ok(Val::Num(Num::of_i32(items.as_slice()[index]))),
            Column::I64(items) => Ok(Val::Num(Num::of_i64(items.as_slice()[index]))),
            Column::U8(items) => Ok(Val::Num(Num::of_u8(items.as_slice()[index]))),
            Column::U16(items) => Ok(Val::Num(Num::of_u16(items.as_slice()[index]))),
            Column::U32(items) => Ok(Val::Num(Num::of_u32(items.as_slice()[index]))),
            Column::U64(items) => Ok(Val::Num(Num::of_u64(items.as_slice()[index]))),
            Column::Structs(items) => items.copy_at(alloc, index),
            Column::Nest(items) => items.at(index).copy(alloc),
        }
    }
}
