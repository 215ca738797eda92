//! Copies of values.

ghost use Rattle.std.specs.Prelude.{◌≡◌, IfOk};

use super::{Column, Pair, Pairs, Val, Vals};
use crate::i8s::I8s;
use crate::items::Items;
use std::alloc::{AllocError, Global};

impl Val {
    /// A value that equals this one.
    #[cycle(copy)]
    pub fn copy(&self, alloc: Global) -> Result<Val, AllocError>
        ensures { IfOk result (λ copy. copy ≡ self.now) }
    {
        match self {
            Val::Num(number) => Ok(Val::Num(*number)),
            Val::List(column) => Ok(Val::List(column.copy(alloc)?)),
            Val::Struct(fields) => Ok(Val::Struct(fields.copy(alloc)?)),
            Val::Dict(pairs) => Ok(Val::Dict(pairs.copy(alloc)?)),
        }
    }
}

impl Column {
    /// A column that equals this one.
    #[cycle(copy)]
    pub fn copy(&self, alloc: Global) -> Result<Column, AllocError>
        ensures { IfOk result (λ copy. copy ≡ self.now) }
    {
        match self {
            Column::Bool(items) => Ok(Column::Bool(Items::copy_of(alloc, items.as_slice())?)),
            Column::I8(items) => Ok(Column::I8(I8s::copy_of(alloc, items.as_slice())?)),
            Column::I16(items) => Ok(Column::I16(Items::copy_of(alloc, items.as_slice())?)),
            Column::I32(items) => Ok(Column::I32(Items::copy_of(alloc, items.as_slice())?)),
            Column::I64(items) => Ok(Column::I64(Items::copy_of(alloc, items.as_slice())?)),
            Column::U8(items) => Ok(Column::U8(Items::copy_of(alloc, items.as_slice())?)),
            Column::U16(items) => Ok(Column::U16(Items::copy_of(alloc, items.as_slice())?)),
            Column::U32(items) => Ok(Column::U32(Items::copy_of(alloc, items.as_slice())?)),
            Column::U64(items) => Ok(Column::U64(Items::copy_of(alloc, items.as_slice())?)),
            Column::Structs(items) => Ok(Column::Structs(items.copy(alloc)?)),
            Column::Nest(items) => Ok(Column::Nest(items.copy(alloc)?)),
        }
    }
}

impl Vals {
    /// A list that equals this one.
    #[cycle(copy)]
    pub fn copy(&self, alloc: Global) -> Result<Vals, AllocError>
        ensures { IfOk result (λ copy. copy ≡ self.now) }
    {
        let mut items = Vec::with_capacity(alloc, self.items.len())?;
        for item in &self.items {
            items.push(item.copy(alloc)?)?;
        }
        Ok(Vals { items })
    }
}

impl Pairs {
    /// A dictionary that equals this one.
    #[cycle(copy)]
    pub fn copy(&self, alloc: Global) -> Result<Pairs, AllocError>
        ensures { IfOk result (λ copy. copy ≡ self.now) }
    {
        let mut items = Vec::with_capacity(alloc, self.items.len())?;
        for pair in &self.items {
            items.push(pair.copy(alloc)?)?;
        }
        Ok(Pairs { items })
    }
}

impl Pair {
    /// A pair that equals this one.
    #[cycle(copy)]
    pub fn copy(&self, alloc: Global) -> Result<Pair, AllocError>
        ensures { IfOk result (λ copy. copy ≡ self.now) }
    {
        let key = self.key.copy(alloc)?;
        let value = self.value.copy(alloc)?;
        Ok(Pair { key, value })
    }
}
