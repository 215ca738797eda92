//! The text of values.

ghost use Rattle.std.specs.Prelude.{◌≡◌, ◌++◌, ◌<◌, ◌↔◌, map, codes, IfOk, OnOk, IsTrue};
ghost use Rattle.std.specs.Int.{w8, cast_unsigned};
ghost use Rattle.weld_data.specs.Kind.{InRange};
ghost use Rattle.weld_data.specs.Value.{number, values, entries};
ghost use Rattle.weld_data.specs.View.{view_val, view_column};
ghost use Rattle.weld_data.specs.declared.kind.Kind.TheVariants as kinds;
ghost use Rattle.weld_tree.specs.TypeTree.{scalar, pack};
ghost use Rattle.weld_tree.specs.HasValue.{HasValue, HaveValues, AllAre, AllEntriesAre};
ghost use Rattle.weld_write_value.specs.Showing.{IsI8, shown_scalar, shown_number, shown_list, shown_byte, hex_of, strung, shown_elements, shown_entries, show, show_fields, ShowValue};

use crate::cell::Cell;
use crate::structs::write_structs;
use itoa::Buffer;
use std::alloc::{AllocError, Global};
use weld_data::{Column, Kind, Num, Pairs, Text, Val, Vals};
use weld_tree::{Ty, TyForm, Tys};

/// Appends scalars in brackets, with a comma between each two.
fn write_cells<T: Cell>(items: &[T], out: &mut Text) -> Result<(), AllocError>
    ensures { OnOk result (out.new ≡ out.old ++ shown_list shown_scalar (map T.value items.now)) }
{
    if items.is_empty() {
        return out.push_all(b"[]");
    }
    let mut lead = b'[';
    'items: for item in items {
        out.push(lead)?;
        item.write(out)?;
        lead = b',';
    }
    out.push(b']')
}

/// A lower-case hexadecimal digit.
fn hex_of(n: u8) -> u8
    requires { n < 16 }
    ensures { result ≡ hex_of n }
{
    if n < 10 { n + b'0' } else { n - 10 + b'a' }
}

/// Appends a byte of a string as value text has it: `"` and `\` behind a `\`, a byte that isn't printed as `\x` and two
/// hexadecimal digits, any other as it is. An error is want of memory; then a front of that may be appended.
pub fn write_byte(byte: u8, out: &mut Text) -> Result<(), AllocError>
    ensures { OnOk result (out.new ≡ out.old ++ shown_byte byte) }
{
    match byte {
        b'"' => out.push_all(b"\\\""),
        b'\\' => out.push_all(b"\\\\"),
        b' '..=b'~' => out.push(byte),
        _ => out.push_all(&[b'\\', b'x', hex_of(byte / 16), hex_of(byte % 16)]),
    }
}

/// Appends the items of a string.
fn write_items(items: &[i8], out: &mut Text) -> Result<(), AllocError>
    ensures { OnOk result (out.new ≡ out.old ++ strung (map (number kinds.I8) items.now)) }
{
    'items: for item in items {
        write_byte(item.cast_unsigned(), out)?;
    }
    Ok(())
}

/// The byte of a number of kind i8, modulo 256.
fn byte_of(number: Num) -> u8
    requires { InRange kinds.I8 number.value }
    ensures { result ≡ cast_unsigned w8 number.value }
{
    (number.value as i8).cast_unsigned()
}

/// The same where the numbers may be kept in another way.
fn write_numbers(column: &Column, out: &mut Text) -> Result<(), AllocError>
    requires { AllAre (HasValue (scalar kinds.I8)) (values (view_column column.now)) }
    ensures { OnOk result (out.new ≡ out.old ++ strung (view_column column.now)) }
{
    'items: for i in 0..column.len() {
        let number = column.number_at(i);
        write_byte(byte_of(number), out)?;
    }
    Ok(())
}

/// Appends a list of numbers of kind i8 as a string.
fn write_string(column: &Column, out: &mut Text) -> Result<(), AllocError>
    requires { AllAre (HasValue (scalar kinds.I8)) (values (view_column column.now)) }
    ensures { OnOk result (out.new ≡ out.old ++ (codes "\"" ++ strung (view_column column.now)
        ++ codes "\"")) }
{
    out.push(b'"')?;
    match column {
        Column::I8(items) => write_items(items.as_slice(), out)?,
        _ => write_numbers(column, out)?,
    }
    out.push(b'"')
}

/// Appends a number.
pub(crate) fn write_number(number: Num, out: &mut Text) -> Result<(), AllocError>
    ensures { OnOk result (out.new ≡ out.old ++ shown_number number.kind number.value) }
{
    match number.kind {
        Kind::Bool => {
            if number.value == 0 {
                out.push_all(b"false")
            } else {
                out.push_all(b"true")
            }
        }
        _ => { out.push_all(Buffer::new().format(number.value).as_bytes()) }
    }
}

/// Whether the type is that of the numbers that a string spells: lists of it are written as strings.
pub fn is_i8(item: &Ty) -> bool
    ensures { IsTrue result ↔ IsI8 item.now }
{
    match &item.form {
        TyForm::Scalar(Kind::I8) => true,
        _ => false,
    }
}

/// Appends a value of the type.
#[cycle(write)]
fn write_at(ty: &Ty, value: &Val, out: &mut Text) -> Result<(), AllocError>
    requires { HasValue ty.now (view_val value.now) }
    ensures { OnOk result (out.new ≡ out.old ++ show ty.now (view_val value.now)) }
{
    match (&ty.form, value) {
        (TyForm::Scalar(_), Val::Num(number)) => write_number(*number, out),
        (TyForm::Vec(item), Val::List(column)) => write_column(item, column, out),
        (TyForm::Struct(fields), Val::Struct(values)) => write_struct(fields, values, out),
        (TyForm::Dict(key, value), Val::Dict(pairs)) => write_dict(key, value, pairs, out),
        _ => unreachable!(),
    }
}

/// Appends a list of values of the type.
#[cycle(write)]
fn write_column(item: &Ty, column: &Column, out: &mut Text) -> Result<(), AllocError>
    requires { AllAre (HasValue item.now) (values (view_column column.now)) }
    ensures { OnOk result (out.new ≡ out.old ++ shown_elements item.now (show item.now)
        (view_column column.now)) }
{
    if is_i8(item) {
        return write_string(column, out);
    }
    match column {
        Column::Bool(items) => write_cells(items.as_slice(), out),
        Column::I8(items) => write_cells(items.as_slice(), out),
        Column::I16(items) => write_cells(items.as_slice(), out),
        Column::I32(items) => write_cells(items.as_slice(), out),
        Column::I64(items) => write_cells(items.as_slice(), out),
        Column::U8(items) => write_cells(items.as_slice(), out),
        Column::U16(items) => write_cells(items.as_slice(), out),
        Column::U32(items) => write_cells(items.as_slice(), out),
        Column::U64(items) => write_cells(items.as_slice(), out),
        Column::Structs(items) => write_structs(item, items, out),
        Column::Nest(items) => write_nested(item, items.as_slice(), out),
    }
}

/// Appends values of the type in brackets, with a comma between each two.
#[cycle(write)]
fn write_nested(item: &Ty, items: &[Val], out: &mut Text) -> Result<(), AllocError>
    requires { AllAre (HasValue item.now) (values (map view_val items.now)) }
    ensures { OnOk result (out.new ≡ out.old ++ shown_list (show item.now)
        (map view_val items.now)) }
{
    if items.is_empty() {
        return out.push_all(b"[]");
    }
    let mut lead = b'[';
    'items: for value in items {
        out.push(lead)?;
        write_at(item, value, out)?;
        lead = b',';
    }
    out.push(b']')
}

/// Appends a struct of these fields.
#[cycle(write)]
fn write_struct(fields: &Tys, vals: &Vals, out: &mut Text) -> Result<(), AllocError>
    requires { HaveValues (pack fields.now) (values vals.now) }
    ensures { OnOk result (out.new ≡ out.old ++ (show_fields (pack fields.now) 123 (values vals.now)
        ++ codes "}")) }
{
    let types = fields.as_slice();
    let mut lead = b'{';
    'fields: for i in 0..types.len() {
        out.push(lead)?;
        write_at(&types[i], vals.at(i), out)?;
        lead = b',';
    }
    out.push(b'}')
}

/// Appends a dictionary, its entries by rising keys.
#[cycle(write)]
fn write_dict(key: &Ty, value: &Ty, pairs: &Pairs, out: &mut Text) -> Result<(), AllocError>
    requires { AllEntriesAre (HasValue key.now) (HasValue value.now) (entries pairs.now) }
    ensures { OnOk result (out.new ≡ out.old ++ shown_entries (show key.now) (show value.now)
        pairs.now) }
{
    if pairs.is_empty() {
        return out.push_all(b"dict{}");
    }
    out.push_all(b"dict")?;
    let mut lead = b'{';
    'entries: for i in 0..pairs.len() {
        let pair = pairs.at(i);
        out.push(lead)?;
        write_at(key, &pair.key, out)?;
        out.push(b':')?;
        write_at(value, &pair.value, out)?;
        lead = b',';
    }
    out.push(b'}')
}

/// The text of a value of the type. It fails for want of memory alone.
pub fn write_value(alloc: Global, value: &Val, ty: &Ty) -> Result<Text, AllocError>
    requires { HasValue ty.now (view_val value.now) }
    ensures { IfOk result (ShowValue (view_val value.now) ty.now) }
{
    let mut out = Text::new(alloc);
    write_at(ty, value, &mut out)?;
    Ok(out)
}
