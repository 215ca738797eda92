//! Values written in pieces.

ghost use Rattle.std.specs.Prelude.{◌≡◌, ◌<◌, ◌++◌, length, map, codes, IfOk, OnOk, MatchBool};
ghost use Rattle.weld_data.specs.Value.{list, values};
ghost use Rattle.weld_data.specs.View.{view_val, view_column};
ghost use Rattle.weld_tree.specs.TypeTree.{pack};
ghost use Rattle.weld_tree.specs.HasValue.{HasValue, HaveValues};
ghost use Rattle.weld_write_value.specs.Showing.{shown_list, shown_scalar, show, show_fields, ShowValue};
ghost use Rattle.weld_text_pieces.specs.Appended.{IsAppended};

use crate::writing::cell::Cell;
use crate::writing::joining::append_list;
use std::alloc::{AllocError, Global};
use std::thread::Threads;
use weld_data::{Column, Text, Val, Vals};
use weld_tree::{Ty, TyForm, Tys};

/// Shorter lists are written by one thread, since starting others takes longer than writing.
const SHORT: usize = 65_536;

/// Appends the scalars in brackets if there are many; tells whether it did.
fn append_many<T: Cell + Sync>(
    rt: &(impl Threads + Sync),
    alloc: Global,
    items: &[T],
    workers: u32,
    out: &mut Text,
) -> Result<bool, AllocError>
    requires { 0 < workers }
    ensures { IfOk result (λ is_done. MatchBool is_done
        ((0 < length items.now) × (out.new ≡ out.old ++ shown_list shown_scalar
        (map T.value items.now)))
        (out.new ≡ out.old)) }
{
    if items.len() < SHORT {
        return Ok(false);
    }
    append_list(rt, alloc, items, workers, out)?;
    Ok(true)
}

/// Appends the list if it is a long one of scalars that stand in brackets; tells whether it did.
fn append_column(
    rt: &(impl Threads + Sync),
    alloc: Global,
    column: &Column,
    workers: u32,
    out: &mut Text,
) -> Result<bool, AllocError>
    requires { 0 < workers }
    ensures { IfOk result (λ is_done. MatchBool is_done
        (IsAppended out.old out.new (list (values (view_column column.now))))
        (out.new ≡ out.old)) }
{
    match column {
        Column::Bool(items) => append_many(rt, alloc, items.as_slice(), workers, out),
        Column::I8(_) | Column::Structs(_) | Column::Nest(_) => Ok(false),
        Column::I16(items) => append_many(rt, alloc, items.as_slice(), workers, out),
        Column::I32(items) => append_many(rt, alloc, items.as_slice(), workers, out),
        Column::I64(items) => append_many(rt, alloc, items.as_slice(), workers, out),
        Column::U8(items) => append_many(rt, alloc, items.as_slice(), workers, out),
        Column::U16(items) => append_many(rt, alloc, items.as_slice(), workers, out),
        Column::U32(items) => append_many(rt, alloc, items.as_slice(), workers, out),
        Column::U64(items) => append_many(rt, alloc, items.as_slice(), workers, out),
    }
}

/// Appends a value of the type.
fn append_value(
    rt: &(impl Threads + Sync),
    alloc: Global,
    value: &Val,
    ty: &Ty,
    workers: u32,
    out: &mut Text,
) -> Result<(), AllocError>
    requires typed { HasValue ty.now (view_val value.now) }
    requires some_worker { 0 < workers }
    ensures { OnOk result (out.new ≡ out.old ++ show ty.now (view_val value.now)) }
{
    if let Val::List(column) = value {
        if append_column(rt, alloc, column, workers, out)? {
            return Ok(());
        }
    }
    let text = weld_write_value::write_value(alloc, value, ty)?;
    if out.is_empty() {
        *out = text;
        return Ok(());
    }
    out.push_all(text.as_slice())
}

/// Appends a struct of these fields.
fn append_struct(
    rt: &(impl Threads + Sync),
    alloc: Global,
    vals: &Vals,
    fields: &Tys,
    workers: u32,
    out: &mut Text,
) -> Result<(), AllocError>
    requires typed { HaveValues (pack fields.now) (values vals.now) }
    requires some_worker { 0 < workers }
    ensures { OnOk result (out.new ≡ out.old ++ (show_fields (pack fields.now) 123 (values vals.now)
        ++ codes "}")) }
{
    let types = fields.as_slice();
    let mut lead = b'{';
    'fields: for i in 0..types.len() {
        out.push(lead)?;
        append_value(rt, alloc, vals.at(i), &types[i], workers, out)?;
        lead = b',';
    }
    out.push(b'}')
}

/// The text of a value of the type, as `weld_write_value::write_value` writes it. A long list of scalars, also where it is a
/// field of the value, is written in pieces, as many as there are workers, each by a thread where one is free. It fails for
/// want of memory alone.
pub fn write_value(
    rt: &(impl Threads + Sync),
    alloc: Global,
    value: &Val,
    ty: &Ty,
    workers: u32,
) -> Result<Text, AllocError>
    requires typed { HasValue ty.now (view_val value.now) }
    requires some_worker { 0 < workers }
    ensures { IfOk result (ShowValue (view_val value.now) ty.now) }
{
    let mut out = Text::new(alloc);
    match (&ty.form, value) {
        (TyForm::Struct(fields), Val::Struct(vals)) => {
            append_struct(rt, alloc, vals, fields, workers, &mut out)?
        }
        _ => append_value(rt, alloc, value, ty, workers, &mut out)?,
    }
    Ok(out)
}
