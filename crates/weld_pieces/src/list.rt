ghost use Rattle.std.specs.Prelude.{◌≡◌, ◌∷◌, ◌++◌, [], map, None, IfOk, OnOk, OnErr};
ghost use Rattle.weld_data.specs.View.{view_val, view_column};
ghost use Rattle.weld_pieces.specs.Items.{kind_of_items, items_of_list};
ghost use Rattle.weld_pieces.specs.Grown.{MayGrow};

use crate::grow::append_item;
use crate::part::Part;
use crate::words::append_words;
use std::alloc::{AllocError, Global};
use weld_data::{Column, I8s, Items, Kind, Stop, Structs, Val, Vals};

/// The items of a list, numbers of one kind in an array of that kind, structs of numbers as their numbers. A caller that merges
/// many numbers matches once and pushes onto the array itself.
#[derive(Debug, Drop)]
pub enum ListPart {
    Bool(Vec<bool>),
    I8(Vec<i8>),
    I16(Vec<i16>),
    I32(Vec<i32>),
    I64(Vec<i64>),
    U8(Vec<u8>),
    U16(Vec<u16>),
    U32(Vec<u32>),
    U64(Vec<u64>),
    Structs(Structs),
    Nest(Vec<Val>),
}

impl ListPart {
    ghost use Rattle.std.specs.Prelude.{◌≡◌, ◌<◌, ◌≤◌, ◌+◌, [], map, Some, None, IsTrue, IsOk, IfOk, OnOk, OnErr, ◌∷◌, ◌++◌};
    ghost use Rattle.weld_data.specs.Value.{number};
    ghost use Rattle.weld_data.specs.Kind.{IsNarrow, InRange};
    ghost use Rattle.weld_data.specs.View.{view_val, view_column};
    ghost use Rattle.weld_builders.specs.Range.{AllInRange};
    ghost use Rattle.weld_pieces.specs.Items.{kind_of_items, items_of_list, spare_of_list};
    ghost use Rattle.weld_pieces.specs.Kept.{IsKeptAs};

    /// The list without items; of numbers of a kind, or of values. It takes no memory.
    pub fn empty(alloc: Global, kind: Option<Kind>) -> ListPart
        ensures items { items_of_list result ≡ [] }
        ensures kind { kind_of_items result ≡ kind }
        ensures spare { spare_of_list result ≡ 0 }
    {
        match kind {
            Some(Kind::Bool) => ListPart::Bool(Vec::new(alloc)),
            Some(Kind::I8) => ListPart::I8(Vec::new(alloc)),
            Some(Kind::I16) => ListPart::I16(Vec::new(alloc)),
            Some(Kind::I32) => ListPart::I32(Vec::new(alloc)),
            Some(Kind::I64) => ListPart::I64(Vec::new(alloc)),
            Some(Kind::U8) => ListPart::U8(Vec::new(alloc)),
            Some(Kind::U16) => ListPart::U16(Vec::new(alloc)),
            Some(Kind::U32) => ListPart::U32(Vec::new(alloc)),
            Some(Kind::U64) => ListPart::U64(Vec::new(alloc)),
            None => ListPart::Nest(Vec::new(alloc)),
        }
    }

    /// How the items are kept: as numbers of a kind, or as values. It takes no memory.
    #[inline(always)]
    pub fn kind(&self) -> Option<Kind>
        ensures { result ≡ kind_of_items self.now }
    {
        match self {
            ListPart::Bool(_) => Some(Kind::Bool),
            ListPart::I8(_) => Some(Kind::I8),
            ListPart::I16(_) => Some(Kind::I16),
            ListPart::I32(_) => Some(Kind::I32),
            ListPart::I64(_) => Some(Kind::I64),
            ListPart::U8(_) => Some(Kind::U8),
            ListPart::U16(_) => Some(Kind::U16),
            ListPart::U32(_) => Some(Kind::U32),
            ListPart::U64(_) => Some(Kind::U64),
            ListPart::Structs(_) | ListPart::Nest(_) => None,
        }
    }

    /// Whether there are no items. It takes no memory.
    pub fn is_empty(&self) -> bool
        ensures none { IsTrue result → items_of_list self.now ≡ [] }
    {
        match self {
            ListPart::Bool(items) => items.is_empty(),
            ListPart::I8(items) => items.is_empty(),
            ListPart::I16(items) => items.is_empty(),
            ListPart::I32(items) => items.is_empty(),
            ListPart::I64(items) => items.is_empty(),
            ListPart::U8(items) => items.is_empty(),
            ListPart::U16(items) => items.is_empty(),
            ListPart::U32(items) => items.is_empty(),
            ListPart::U64(items) => items.is_empty(),
            ListPart::Structs(items) => items.is_empty(),
            ListPart::Nest(items) => items.is_empty(),
        }
    }

    /// Appends a number of the list's kind that lies within an i64, false being 0 and true 1. With
    /// room to spare it takes no memory, and there is room for one less afterwards. Where memory is
    /// wanting, the list stays as it was.
    pub fn push_number(&mut self, kind: Kind, x: i64) -> Result<(), AllocError>
        requires kind { kind_of_items self.old ≡ Some kind }
        requires in_range { InRange kind x }
        ensures ok { OnOk result (items_of_list self.new
            ≡ items_of_list self.old ++ number kind x ∷ []) }
        ensures err { OnErr result (items_of_list self.new ≡ items_of_list self.old) }
        ensures kind { kind_of_items self.new ≡ kind_of_items self.old }
        ensures room { 0 < spare_of_list self.old → IsOk result }
        ensures lower { 0 < spare_of_list self.old → spare_of_list self.new + 1
            ≡ spare_of_list self.old }
    {
        match self {
            ListPart::Bool(items) => append_item(items, x == 1),
            ListPart::I8(items) => append_item(items, x as i8),
            ListPart::I16(items) => append_item(items, x as i16),
            ListPart::I32(items) => append_item(items, x as i32),
            ListPart::I64(items) => append_item(items, x),
            ListPart::U8(items) => append_item(items, x as u8),
            ListPart::U16(items) => append_item(items, x as u16),
            ListPart::U32(items) => append_item(items, x as u32),
            ListPart::U64(items) => append_item(items, x as u64),
            ListPart::Structs(_) | ListPart::Nest(_) => unreachable!(),
        }
    }

    /// The same of any number of the kind.
    pub fn push_wide(&mut self, kind: Kind, x: i128) -> Result<(), AllocError>
        requires kind { kind_of_items self.old ≡ Some kind }
        requires in_range { InRange kind x }
        ensures ok { OnOk result (items_of_list self.new
            ≡ items_of_list self.old ++ number kind x ∷ []) }
        ensures err { OnErr result (items_of_list self.new ≡ items_of_list self.old) }
        ensures kind { kind_of_items self.new ≡ kind_of_items self.old }
        ensures room { 0 < spare_of_list self.old → IsOk result }
        ensures lower { 0 < spare_of_list self.old → spare_of_list self.new + 1
            ≡ spare_of_list self.old }
    {
        match self {
            ListPart::Bool(items) => append_item(items, x == 1),
            ListPart::I8(items) => append_item(items, x as i8),
            ListPart::I16(items) => append_item(items, x as i16),
            ListPart::I32(items) => append_item(items, x as i32),
            ListPart::I64(items) => append_item(items, x as i64),
            ListPart::U8(items) => append_item(items, x as u8),
            ListPart::U16(items) => append_item(items, x as u16),
            ListPart::U32(items) => append_item(items, x as u32),
            ListPart::U64(items) => append_item(items, x as u64),
            ListPart::Structs(_) | ListPart::Nest(_) => unreachable!(),
        }
    }

    /// Appends numbers of the list's kind, the first one first, false being 0 and true 1. The kind is
    /// looked at once.
    pub fn push_numbers(&mut self, kind: Kind, items: &[i64]) -> Result<(), AllocError>
        requires kind { kind_of_items self.old ≡ Some kind }
        requires narrow { IsNarrow kind }
        requires in_range { AllInRange kind items.now }
        ensures ok { OnOk result (items_of_list self.new
            ≡ items_of_list self.old ++ map (number kind) items.now) }
        ensures kind { kind_of_items self.new ≡ kind_of_items self.old }
    {
        match self {
            ListPart::Bool(own) => append_words(own, items),
            ListPart::I8(own) => append_words(own, items),
            ListPart::I16(own) => append_words(own, items),
            ListPart::I32(own) => append_words(own, items),
            ListPart::I64(own) => own.extend_from_slice(items),
            ListPart::U8(own) => append_words(own, items),
            ListPart::U16(own) => append_words(own, items),
            ListPart::U32(own) => append_words(own, items),
            ListPart::U64(_) | ListPart::Structs(_) | ListPart::Nest(_) => unreachable!(),
        }
    }

    /// Appends an item: a number of the list's kind, or any value where it is a list of values. Room
    /// and want of memory are as for a number.
    pub fn push(&mut self, item: Val) -> Result<(), AllocError>
        requires { IsKeptAs (kind_of_items self.old) (view_val item) }
        ensures ok { OnOk result (items_of_list self.new
            ≡ items_of_list self.old ++ view_val item ∷ []) }
        ensures err { OnErr result (items_of_list self.new ≡ items_of_list self.old) }
        ensures kind { kind_of_items self.new ≡ kind_of_items self.old }
        ensures room { 0 < spare_of_list self.old → IsOk result }
        ensures lower { 0 < spare_of_list self.old → spare_of_list self.new + 1
            ≡ spare_of_list self.old }
    {
        match self {
            ListPart::Structs(items) => match push_struct(items, item) {
                Ok(Some(values)) => {
                    *self = ListPart::Nest(values);
                    Ok(())
                }
                Ok(None) => Ok(()),
                Err(e) => Err(e),
            },
            ListPart::Nest(items) => append_item(items, item),
            _ => match item {
                Val::Num(n) => self.push_wide(n.kind, n.value),
                _ => unreachable!(),
            },
        }
    }

    /// Appends the items of a later list of the same kind, without a copy of those that are here; a
    /// list without items takes the later one whole. Where memory is wanting, this list stays as it
    /// was, and the later one is dropped.
    pub fn append(&mut self, later: ListPart) -> Result<(), AllocError>
        requires { kind_of_items self.old ≡ kind_of_items later }
        ensures ok { OnOk result (items_of_list self.new
            ≡ items_of_list self.old ++ items_of_list later) }
        ensures err { OnErr result (items_of_list self.new ≡ items_of_list self.old) }
        ensures kind { kind_of_items self.new ≡ kind_of_items self.old }
    {
        if self.is_empty() {
            *self = later;
            return Ok(());
        }
        if let ListPart::Structs(items) = self {
            match join_structs(items, later) {
                Ok(Some(values)) => {
                    *self = ListPart::Nest(values);
                }
                Ok(None) => {}
                Err(e) => return Err(e),
            }
            return Ok(());
        }
        match (self, later) {
            (ListPart::Bool(items), ListPart::Bool(more)) => return items.extend_from_slice(&more),
            (ListPart::I8(items), ListPart::I8(more)) => return items.extend_from_slice(&more),
            (ListPart::I16(items), ListPart::I16(more)) => return items.extend_from_slice(&more),
            (ListPart::I32(items), ListPart::I32(more)) => return items.extend_from_slice(&more),
            (ListPart::I64(items), ListPart::I64(more)) => return items.extend_from_slice(&more),
            (ListPart::U8(items), ListPart::U8(more)) => return items.extend_from_slice(&more),
            (ListPart::U16(items), ListPart::U16(more)) => return items.extend_from_slice(&more),
            (ListPart::U32(items), ListPart::U32(more)) => return items.extend_from_slice(&more),
            (ListPart::U64(items), ListPart::U64(more)) => return items.extend_from_slice(&more),
            (ListPart::Nest(items), ListPart::Nest(mut more)) => return items.append(&mut more),
            (ListPart::Nest(items), ListPart::Structs(more)) => return append_values(items, &more),
            _ => unreachable!(),
        }
    }

    /// A list of the same items, kept as they are kept here.
    pub fn copy(&self, alloc: Global) -> Result<ListPart, AllocError>
        ensures items { IfOk result (λ list. items_of_list list ≡ items_of_list self.now) }
        ensures kind { IfOk result (λ list. kind_of_items list ≡ kind_of_items self.now) }
    {
        match self {
            ListPart::Bool(items) => Ok(ListPart::Bool(Vec::from_slice(alloc, items)?)),
            ListPart::I8(items) => Ok(ListPart::I8(Vec::from_slice(alloc, items)?)),
            ListPart::I16(items) => Ok(ListPart::I16(Vec::from_slice(alloc, items)?)),
            ListPart::I32(items) => Ok(ListPart::I32(Vec::from_slice(alloc, items)?)),
            ListPart::I64(items) => Ok(ListPart::I64(Vec::from_slice(alloc, items)?)),
            ListPart::U8(items) => Ok(ListPart::U8(Vec::from_slice(alloc, items)?)),
            ListPart::U16(items) => Ok(ListPart::U16(Vec::from_slice(alloc, items)?)),
            ListPart::U32(items) => Ok(ListPart::U32(Vec::from_slice(alloc, items)?)),
            ListPart::U64(items) => Ok(ListPart::U64(Vec::from_slice(alloc, items)?)),
            ListPart::Structs(items) => Ok(ListPart::Structs(items.copy(alloc)?)),
            ListPart::Nest(items) => Ok(ListPart::Nest(copies_of(alloc, items)?)),
        }
    }

    /// A list of the same items, kept as values.
    pub fn to_values(&self, alloc: Global) -> Result<ListPart, AllocError>
        ensures items { IfOk result (λ list. items_of_list list ≡ items_of_list self.now) }
        ensures kind { IfOk result (λ list. kind_of_items list ≡ None) }
    {
        let column = self.copy(alloc)?.into_column();
        Ok(ListPart::Nest(elements_of(alloc, &column)?))
    }

    /// The items as a column, which keeps their memory. It takes none.
    pub fn into_column(self) -> Column
        ensures { view_column result ≡ items_of_list self }
    {
        match self {
            ListPart::Bool(items) => Column::Bool(Items::from_vec(items)),
            ListPart::I8(items) => Column::I8(I8s::from_vec(items)),
            ListPart::I16(items) => Column::I16(Items::from_vec(items)),
            ListPart::I32(items) => Column::I32(Items::from_vec(items)),
            ListPart::I64(items) => Column::I64(Items::from_vec(items)),
            ListPart::U8(items) => Column::U8(Items::from_vec(items)),
            ListPart::U16(items) => Column::U16(Items::from_vec(items)),
            ListPart::U32(items) => Column::U32(Items::from_vec(items)),
            ListPart::U64(items) => Column::U64(Items::from_vec(items)),
            ListPart::Structs(items) => Column::Structs(items),
            ListPart::Nest(items) => Column::Nest(Vals::from_vec(items)),
        }
    }

    /// For how many more items there is room.
    pub fn spare(&self) -> usize
        ensures { result ≡ spare_of_list self.now }
    {
        match self {
            ListPart::Bool(items) => items.capacity() - items.len(),
            ListPart::I8(items) => items.capacity() - items.len(),
            ListPart::I16(items) => items.capacity() - items.len(),
            ListPart::I32(items) => items.capacity() - items.len(),
            ListPart::I64(items) => items.capacity() - items.len(),
            ListPart::U8(items) => items.capacity() - items.len(),
            ListPart::U16(items) => items.capacity() - items.len(),
            ListPart::U32(items) => items.capacity() - items.len(),
            ListPart::U64(items) => items.capacity() - items.len(),
            ListPart::Structs(_) => 0,
            ListPart::Nest(items) => items.capacity() - items.len(),
        }
    }

    /// Makes room for as many more items at least, and leaves those that are there.
    pub fn reserve(&mut self, items: u64) -> Result<(), AllocError>
        ensures content { items_of_list self.new ≡ items_of_list self.old }
        ensures kind { kind_of_items self.new ≡ kind_of_items self.old }
        ensures spare { OnOk result (items ≤ spare_of_list self.new) }
    {
        let more = items as usize;
        match self {
            ListPart::Bool(items) => items.reserve(more),
            ListPart::I8(items) => items.reserve(more),
            ListPart::I16(items) => items.reserve(more),
            ListPart::I32(items) => items.reserve(more),
            ListPart::I64(items) => items.reserve(more),
            ListPart::U8(items) => items.reserve(more),
            ListPart::U16(items) => items.reserve(more),
            ListPart::U32(items) => items.reserve(more),
            ListPart::U64(items) => items.reserve(more),
            ListPart::Structs(items) => {
                let mut values = values_of(items)?;
                values.reserve(more)?;
                *self = ListPart::Nest(values);
                Ok(())
            }
            ListPart::Nest(items) => items.reserve(more),
        }
    }
}

/// Appends an item to structs of numbers, where it is such a struct; else they are given back as values, the item behind them.
fn push_struct(items: &mut Structs, item: Val) -> Result<Option<Vec<Val>>, AllocError>
    ensures { MayGrow result items.old (view_val item ∷ []) items.new }
{
    if let Val::Struct(fields) = &item {
        match items.push(fields.as_slice()) {
            Ok(true) => return Ok(None),
            Ok(false) => {}
            Err(e) => return Err(e),
        }
    }
    let mut values = values_of(items)?;
    values.push(item)?;
    Ok(Some(values))
}

/// Appends the items of a later list, which keeps values or such structs, to structs of numbers, where they are such; else all are
/// given back as values.
fn join_structs(items: &mut Structs, later: ListPart) -> Result<Option<Vec<Val>>, AllocError>
    requires { kind_of_items later ≡ None }
    ensures { MayGrow result items.old (items_of_list later) items.new }
{
    match later {
        ListPart::Structs(more) => match items.append(&more) {
            Ok(true) => Ok(None),
            Ok(false) => {
                let mut values = values_of(items)?;
                append_values(&mut values, &more)?;
                Ok(Some(values))
            }
            Err(e) => Err(e),
        },
        ListPart::Nest(mut more) => {
            let mut values = values_of(items)?;
            values.append(&mut more)?;
            Ok(Some(values))
        }
        _ => unreachable!(),
    }
}

/// Appends the values that structs of numbers are.
fn append_values(values: &mut Vec<Val>, more: &Structs) -> Result<(), AllocError>
    ensures ok { OnOk result (map view_val values.new.items
        ≡ map view_val values.old.items ++ more.now) }
    ensures err { OnErr result (values.new.items ≡ values.old.items) }
{
    let mut more = values_of(more)?;
    values.append(&mut more)
}

/// The values that structs of numbers are.
fn values_of(items: &Structs) -> Result<Vec<Val>, AllocError>
    ensures { IfOk result (λ values. map view_val values.items ≡ items.now) }
{
    let alloc = items.allocator();
    let count = items.len();
    let mut values = Vec::with_capacity(alloc, count)?;
    for place in 0..count {
        values.push(items.copy_at(alloc, place)?)?;
    }
    Ok(values)
}

/// Values that equal these.
fn copies_of(alloc: Global, values: &[Val]) -> Result<Vec<Val>, AllocError>
    ensures { IfOk result (λ copies. copies.items ≡ values.now) }
{
    let mut copies = Vec::with_capacity(alloc, values.len())?;
    for value in values {
        copies.push(value.copy(alloc)?)?;
    }
    Ok(copies)
}

/// The elements of a column, each as a value.
fn elements_of(alloc: Global, column: &Column) -> Result<Vec<Val>, AllocError>
    ensures { IfOk result (λ values. map view_val values.items ≡ view_column column.now) }
{
    let count = column.len();
    let mut values = Vec::with_capacity(alloc, count)?;
    for place in 0..count {
        values.push(column.copy_at(alloc, place)?)?;
    }
    Ok(values)
}

impl Part for ListPart {
    ghost use Rattle.std.specs.Prelude.{refl};
    ghost use Rattle.weld_data.specs.View.{view_val};
    ghost use Rattle.weld_builders.specs.Part.{list_part};
    ghost use Rattle.weld_builders.specs.Builder.{one_part, item};
    ghost use Rattle.weld_pieces.specs.Items.{kind_of_items, items_of_list, spare_of_list};
    ghost use Rattle.weld_pieces.specs.Kept.{kept_list};

    type Shape = Option<Kind>;

    type Item = Val;

    type Out = Val;

    ghost builder = { λ p. one_part (list_part (items_of_list p)) };

    ghost kept = { λ p. kept_list (kind_of_items p) };

    ghost kept_from = { λ kind. kept_list kind };

    ghost is_shape = { λ _. Unit {0} };

    ghost as_item = { λ v. item (view_val v) };

    ghost out = { view_val };

    ghost spare = { spare_of_list };

    ghost finishes = { λ p. Unit {0} };

    fn start(alloc: Global, shape: &Option<Kind>) -> Result<ListPart, AllocError> {
        Ok(ListPart::empty(alloc, *shape))
    }

    fn merge(&mut self, item: Val) -> Result<(), Stop> {
        match self.push(item) {
            Ok(()) => Ok(()),
            Err(_) => Err(Stop::Memory),
        }
    }

    fn join(&mut self, later: ListPart) -> Result<(), AllocError> {
        self.append(later)
    }

    fn finish(self, _alloc: Global) -> Result<Val, AllocError> {
        Ok(Val::List(self.into_column()))
    }

    ghost bare_is = { λ p. refl };
}
