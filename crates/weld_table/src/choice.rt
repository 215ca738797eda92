//! Which columns of a table are wanted, by its first record.

ghost use Rattle.std.specs.Prelude.{◌≡◌, ℕ, List, All, IfOk, Some, length, option_map, bytes_eq};
ghost use Rattle.csv.specs.Records.{fields_of, field_at};
ghost use Rattle.weld_table.specs.Table.{IsCell, AreCells, placed, place_in, named, columns_of};
ghost use Rattle.weld_table.specs.Cells.{AreNew, AreChosen};

use crate::column::TableColumn;
use crate::wanted::Wanted;
use csv::ByteRecord;
use std::alloc::{AllocError, Global};
use weld_data::Names;
use weld_tree::Tys;

/// Whether the field at the place is the name.
fn is_named(header: &ByteRecord, place: usize, name: &[u8]) -> bool
    ensures { (field : List ℕ) → field_at (fields_of header.now) place ≡ Some field
        → result ≡ bytes_eq name.now field }
{
    match header.get(place) {
        Some(field) => name == field,
        None => false,
    }
}

/// The place of the first field that is the name.
fn place_of_name(header: &ByteRecord, name: &[u8]) -> Option<usize>
    ensures { result ≡ place_in name.now 0 (fields_of header.now) }
{
    for i in 0..header.len() {
        if is_named(header, i, name) {
            return Some(i);
        }
    }
    None
}

/// One column for each of the types, in order.
fn in_order(alloc: Global, types: &Tys) -> Result<Vec<TableColumn>, AllocError>
    requires { All IsCell types.now }
    ensures { IfOk result (λ columns. AreNew (length types.now) (placed 0 types.now)
        columns.items) }
{
    let mut columns = Vec::new(alloc);
    for (place, ty) in types.as_slice().iter().enumerate() {
        columns.push(TableColumn::new(alloc, place, ty))?;
    }
    Ok(columns)
}

/// The columns of these names, if each stands in the first record.
fn by_name(
    alloc: Global,
    names: &Names,
    types: &Tys,
    header: &ByteRecord,
) -> Result<Option<Vec<TableColumn>>, AllocError>
    requires { All IsCell types.now }
    ensures { IfOk result (λ columns. AreChosen (length (fields_of header.now))
        (named (fields_of header.now) names.now types.now) (option_map (λ v. v.items) columns)) }
{
    let mut columns = Vec::new(alloc);
    let mut left = types.as_slice();
    for name in names.as_slice() {
        let Some((ty, more)) = left.split_first() else {
            return Ok(None);
        };
        let Some(place) = place_of_name(header, name.as_slice()) else {
            return Ok(None);
        };
        columns.push(TableColumn::new(alloc, place, ty))?;
        left = more;
    }
    if left.is_empty() {
        Ok(Some(columns))
    } else {
        Ok(None)
    }
}

/// The wanted columns of a table with this first record, if they stand in it.
pub(crate) fn choose(
    alloc: Global,
    wanted: &Wanted,
    header: &ByteRecord,
) -> Result<Option<Vec<TableColumn>>, AllocError>
    requires { AreCells wanted.now }
    ensures { IfOk result (λ columns. AreChosen (length (fields_of header.now))
        (columns_of wanted.now (fields_of header.now)) (option_map (λ v. v.items) columns)) }
{
    match wanted {
        Wanted::Fields(types) => {
            if header.len() != types.as_slice().len() {
                return Ok(None);
            }
            Ok(Some(in_order(alloc, types)?))
        }
        Wanted::Named(names, types) => by_name(alloc, names, types, header),
    }
}
