//! Values read in pieces.

ghost use Rattle.std.specs.Prelude.{◌<◌, IfOk, IfErr, IfSome};
ghost use Rattle.weld_data.specs.View.{view_val, view_column};
ghost use Rattle.weld_tree.specs.TypeTree.{scalar, vec};
ghost use Rattle.weld_tree.specs.HasValue.{HasValue};
ghost use Rattle.weld_values.specs.Reading.{ReadsAs, WhyNot};
ghost use Rattle.weld_values.specs.Judging.{IsReadable};
ghost use Rattle.weld_text_pieces.specs.Joined.{AreValues};

use crate::reading::filling::read_filled;
use crate::reading::nested::read_nested;
use std::alloc::{AllocError, Global};
use std::thread::Threads;
use weld_data::{Column, I8s, Kind, Val};
use weld_tree::{Ty, TyForm};
use weld_values::laws::{
    plain_values_in_brackets_read_as_lists, read_values_have_the_type,
    scalars_in_brackets_read_as_lists,
};
use weld_values::{DataFault, inside_brackets, is_shallow};

/// Shorter texts are read by one thread, since starting others takes longer than reading.
const SHORT: usize = 262_144;

/// The scalars of the kind that the text is, as a column; none where it is anything else.
fn read_column(
    rt: &(impl Threads + Sync),
    alloc: Global,
    text: &[u8],
    kind: Kind,
    workers: u32,
) -> Result<Option<Column>, AllocError>
    requires { 0 < workers }
    ensures { IfOk result (λ found. IfSome found (λ column. AreValues (scalar kind) text.now
        (view_column column))) }
{
    match kind {
        Kind::Bool => Ok(match read_filled::<bool>(rt, alloc, text, workers)? {
            Some(items) => Some(Column::Bool(items)),
            None => None,
        }),
        Kind::I8 => Ok(match read_filled::<i8>(rt, alloc, text, workers)? {
            Some(items) => Some(Column::I8(I8s::from_vec(items.into_vec()))),
            None => None,
        }),
        Kind::I16 => Ok(match read_filled::<i16>(rt, alloc, text, workers)? {
            Some(items) => Some(Column::I16(items)),
            None => None,
        }),
        Kind::I32 => Ok(match read_filled::<i32>(rt, alloc, text, workers)? {
            Some(items) => Some(Column::I32(items)),
            None => None,
        }),
        Kind::I64 => Ok(match read_filled::<i64>(rt, alloc, text, workers)? {
            Some(items) => Some(Column::I64(items)),
            None => None,
        }),
        Kind::U8 => Ok(match read_filled::<u8>(rt, alloc, text, workers)? {
            Some(items) => Some(Column::U8(items)),
            None => None,
        }),
        Kind::U16 => Ok(match read_filled::<u16>(rt, alloc, text, workers)? {
            Some(items) => Some(Column::U16(items)),
            None => None,
        }),
        Kind::U32 => Ok(match read_filled::<u32>(rt, alloc, text, workers)? {
            Some(items) => Some(Column::U32(items)),
            None => None,
        }),
        Kind::U64 => Ok(match read_filled::<u64>(rt, alloc, text, workers)? {
            Some(items) => Some(Column::U64(items)),
            None => None,
        }),
    }
}

/// The list of values of this type that the content is, if it is one and they are lists of scalars, or structs of such and of scalars.
fn read_nested_list(
    rt: &(impl Threads + Sync),
    alloc: Global,
    content: &[u8],
    item: &Ty,
    workers: u32,
) -> Result<Option<Val>, AllocError>
    requires { 0 < workers }
    ensures { IfOk result (λ found. IfSome found (λ v. ReadsAs content.now (vec item.now)
        (view_val v))) }
{
    plain_values_in_brackets_read_as_lists();
    if !is_shallow(item) {
        return Ok(None);
    }
    let Some(body) = inside_brackets(content) else {
        return Ok(None);
    };
    match read_nested(rt, alloc, body, item, workers)? {
        Some(items) => Ok(Some(Val::List(Column::Nest(items)))),
        None => Ok(None),
    }
}

/// The value of the type that the content is, if it is a list of scalars, of lists of them or of structs of both.
fn read_list(
    rt: &(impl Threads + Sync),
    alloc: Global,
    content: &[u8],
    ty: &Ty,
    workers: u32,
) -> Result<Option<Val>, AllocError>
    requires { 0 < workers }
    ensures { IfOk result (λ found. IfSome found (λ v. ReadsAs content.now ty.now (view_val v))) }
{
    scalars_in_brackets_read_as_lists();
    let TyForm::Vec(item) = &ty.form else {
        return Ok(None);
    };
    let TyForm::Scalar(kind) = &item.form else {
        return read_nested_list(rt, alloc, content, item, workers);
    };
    let Some(body) = inside_brackets(content) else {
        return Ok(None);
    };
    match read_column(rt, alloc, body, *kind, workers)? {
        Some(column) => Ok(Some(Val::List(column))),
        None => Ok(None),
    }
}

/// The content of a data block as a value of the type, or why it is none, as `weld_values::read_value` tells it. A long list of
/// scalars, of lists of them (as of strings), or of structs of both, is read in pieces, as many as there are workers, each by a
/// thread where one is free. What isn't in form or in range is read again from its beginning, so that the reason is the first
/// there; so is what was cut at a comma within a string.
pub fn read_value(
    rt: &(impl Threads + Sync),
    alloc: Global,
    content: &[u8],
    ty: &Ty,
    workers: u32,
) -> Result<Val, DataFault>
    requires readable { IsReadable ty.now }
    requires some_worker { 0 < workers }
    ensures value { IfOk result (λ v. ReadsAs content.now ty.now (view_val v)) }
    ensures typed { IfOk result (λ v. HasValue ty.now (view_val v)) }
    ensures fault { IfErr result (WhyNot content.now ty.now) }
{
    read_values_have_the_type();
    if content.len() < SHORT || workers == 1 {
        return weld_values::read_value(alloc, content, ty);
    }
    match read_list(rt, alloc, content, ty, workers) {
        Ok(Some(value)) => Ok(value),
        Ok(None) => weld_values::read_value(alloc, content, ty),
        Err(_) => Err(DataFault::Memory),
    }
}
