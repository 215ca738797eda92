//! The items of a list.

ghost use Rattle.std.specs.Prelude.{◌≡◌, ◌∷◌, ◌++◌, [], map, None, OnOk};
ghost use Rattle.weld_builders.specs.Range.{AllInRange};
ghost use Rattle.weld_data.specs.Kind.{IsNarrow, InRange};
ghost use Rattle.weld_data.specs.Value.{number};
ghost use Rattle.weld_data.specs.View.{view_val};
ghost use Rattle.weld_pieces.specs.Items.{items_of_list, kind_of_items};
ghost use Rattle.weld_pieces.specs.Kept.{IsKeptAs};
ghost use Rattle.weld_built.specs.Pair.{pair};

use crate::fitting::{are_alike, best_for, keeps, keeps_item, number_of};
use crate::rows::begin;
use std::alloc::{AllocError, Global};
use weld_data::{Kind, Structs, Val, Vals};
use weld_pieces::ListPart;

/// Appends a number.
#[inline]
pub(crate) fn push_number(
    alloc: Global,
    list: &mut ListPart,
    kind: Kind,
    x: i64,
) -> Result<(), AllocError>
    requires { InRange kind x }
    ensures { OnOk result (items_of_list list.new ≡ items_of_list list.old ++ number kind x ∷ []) }
{
    if keeps(list.kind(), kind) {
        return list.push_number(kind, x);
    }
    push_item(alloc, list, number_of(kind, x))
}

/// Appends numbers.
pub(crate) fn push_numbers(
    alloc: Global,
    list: &mut ListPart,
    kind: Kind,
    items: &[i64],
) -> Result<(), AllocError>
    requires narrow { IsNarrow kind }
    requires in_range { AllInRange kind items.now }
    ensures { OnOk result (items_of_list list.new ≡ items_of_list list.old
        ++ map (number kind) items.now) }
{
    make_ready_for(alloc, list, kind);
    if keeps(list.kind(), kind) {
        return list.push_numbers(kind, items);
    }
    push_each(alloc, list, kind, items)
}

/// Keeps numbers of the kind where there are no items yet. It takes no memory.
fn make_ready_for(alloc: Global, list: &mut ListPart, kind: Kind)
    ensures { items_of_list list.new ≡ items_of_list list.old }
{
    if list.is_empty() && !keeps(list.kind(), kind) {
        *list = ListPart::empty(alloc, Some(kind));
    }
}

/// Appends numbers one by one.
fn push_each(
    alloc: Global,
    list: &mut ListPart,
    kind: Kind,
    items: &[i64],
) -> Result<(), AllocError>
    requires narrow { IsNarrow kind }
    requires in_range { AllInRange kind items.now }
    ensures { OnOk result (items_of_list list.new ≡ items_of_list list.old
        ++ map (number kind) items.now) }
{
    for i in 0..items.len() {
        push_number(alloc, list, kind, items[i])?;
    }
    Ok(())
}

/// Appends an item. Behind items that are kept as values it is only put there.
#[inline(always)]
pub(crate) fn push_item(alloc: Global, list: &mut ListPart, item: Val) -> Result<(), AllocError>
    ensures { OnOk result (items_of_list list.new ≡ items_of_list list.old ++ view_val item ∷ []) }
{
    if let ListPart::Nest(items) = list {
        if !items.is_empty() {
            items.push(item)?;
            return Ok(());
        }
    }
    push_ready(alloc, list, item)
}

/// Appends an item to items of any keeping, which is chosen anew where it must be.
#[inline(never)]
fn push_ready(alloc: Global, list: &mut ListPart, item: Val) -> Result<(), AllocError>
    ensures { OnOk result (items_of_list list.new ≡ items_of_list list.old ++ view_val item ∷ []) }
{
    match make_ready(alloc, list, &item) {
        Ok(()) => list.push(item),
        Err(e) => Err(e),
    }
}

/// Appends a struct of two fields.
pub(crate) fn push_pair(
    alloc: Global,
    list: &mut ListPart,
    first: Val,
    second: Val,
) -> Result<(), AllocError>
    ensures { OnOk result (items_of_list list.new ≡ items_of_list list.old
        ++ pair (view_val first) (view_val second) ∷ []) }
{
    let mut fields = Vals::new(alloc);
    fields.push(first)?;
    fields.push(second)?;
    push_item(alloc, list, Val::Struct(fields))
}

/// Makes room for so many more items. Where there are none yet, those to come are taken to be numbers
/// of the kind, where one is given.
pub(crate) fn reserve(
    alloc: Global,
    list: &mut ListPart,
    kind: Option<Kind>,
    items: u64,
) -> Result<(), AllocError>
    ensures { items_of_list list.new ≡ items_of_list list.old }
{
    if let ListPart::Structs(rows) = list {
        return rows.reserve(items as usize);
    }
    if list.is_empty() && !are_alike(list.kind(), kind) {
        *list = ListPart::empty(alloc, kind);
    }
    list.reserve(items)
}

/// Chooses how items are kept such that the item can be one of them.
fn make_ready(alloc: Global, list: &mut ListPart, item: &Val) -> Result<(), AllocError>
    ensures items { OnOk result (items_of_list list.new ≡ items_of_list list.old) }
    ensures kept { OnOk result (IsKeptAs (kind_of_items list.new) (view_val item.now)) }
{
    if list.is_empty() {
        let kind = best_for(item);
        if !are_alike(list.kind(), kind) {
            *list = ListPart::empty(alloc, kind);
        }
        return begin_structs(alloc, list, item);
    }
    if keeps_item(list.kind(), item) {
        return Ok(());
    }
    make_values(alloc, list)
}

/// Where the first item will be a struct of numbers, the list keeps such structs by their numbers.
fn begin_structs(alloc: Global, list: &mut ListPart, item: &Val) -> Result<(), AllocError>
    requires none { items_of_list list.old ≡ [] }
    requires kept { IsKeptAs (kind_of_items list.old) (view_val item.now) }
    ensures items { OnOk result (items_of_list list.new ≡ items_of_list list.old) }
    ensures kept { OnOk result (IsKeptAs (kind_of_items list.new) (view_val item.now)) }
{
    match item {
        Val::Struct(fields) => match Structs::like(alloc, fields.as_slice()) {
            Ok(Some(rows)) => begin(list, rows),
            Ok(None) => Ok(()),
            Err(e) => Err(e),
        },
        _ => Ok(()),
    }
}

/// Keeps the items as values.
fn make_values(alloc: Global, list: &mut ListPart) -> Result<(), AllocError>
    ensures items { OnOk result (items_of_list list.new ≡ items_of_list list.old) }
    ensures kind { OnOk result (kind_of_items list.new ≡ None) }
{
    if list.kind().is_none() {
        return Ok(());
    }
    match list.to_values(alloc) {
        Ok(values) => {
            *list = values;
            Ok(())
        }
        Err(e) => Err(e),
    }
}

/// Appends the items of a later list.
pub(crate) fn join_lists(
    alloc: Global,
    list: &mut ListPart,
    later: ListPart,
) -> Result<(), AllocError>
    ensures { OnOk result (items_of_list list.new ≡ items_of_list list.old ++ items_of_list later) }
{
    if are_alike(list.kind(), later.kind()) {
        return list.append(later);
    }
    if list.is_empty() {
        *list = later;
        return Ok(());
    }
    append_copy(alloc, list, &later)
}

/// Appends the items of a list that is kept otherwise.
fn append_copy(alloc: Global, list: &mut ListPart, later: &ListPart) -> Result<(), AllocError>
    ensures { OnOk result (items_of_list list.new ≡ items_of_list list.old
        ++ items_of_list later.now) }
{
    if later.is_empty() {
        return Ok(());
    }
    make_values(alloc, list)?;
    let more = later.to_values(alloc)?;
    list.append(more)
}
