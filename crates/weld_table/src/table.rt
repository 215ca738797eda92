//! A table's content as a value: which columns are wanted, and the records behind the first, read into them.

ghost use Rattle.std.specs.Prelude.{◌≡◌, List, All, length, map, IfOk, OnOk, IfErr};
ghost use Rattle.std.specs.List.{AllZip};
ghost use Rattle.csv.specs.Records.{fields_of};
ghost use Rattle.weld_data.specs.Value.{struct, values};
ghost use Rattle.weld_data.specs.View.{view_val};
ghost use Rattle.weld_table.specs.Table.{Row, AreCells, TableReads, TableFails};
ghost use Rattle.weld_table.specs.Cells.{StandsBelow, HasGrown, RowsRead, IsUneven, IsJudged, AllRead, worst_of, listed_of};
ghost use Rattle.weld_table.specs.Rows.{Leaves};

use crate::choice::choose;
use crate::column::TableColumn;
use crate::fault::TableFault;
use crate::rows::{next_row, rows};
use crate::verdict::Verdict;
use crate::wanted::Wanted;
use csv::{ByteRecord, Reader};
use std::alloc::{AllocError, Global};
use weld_data::{Val, Vals};

/// Reads the columns' fields of one record more.
fn add_row(alloc: Global, columns: &mut [TableColumn], row: &ByteRecord) -> Result<(), AllocError>
    requires { All (StandsBelow (length (fields_of row.now))) columns.old }
    ensures { OnOk result (AllZip (HasGrown (fields_of row.now)) columns.old columns.new) }
{
    for column in columns.iter_mut() {
        column.add(alloc, row)?;
    }
    Ok(())
}

/// Reads the records that are left into the columns. `width` is how many fields each must have: `Length` tells that one has
/// another number.
fn read_rows(
    alloc: Global,
    reader: &mut Reader<&[u8]>,
    width: usize,
    columns: &mut [TableColumn],
) -> Result<(), TableFault>
    requires stand { All (StandsBelow width) columns.old }
    requires there { (rows : List Row) × Leaves reader.old rows }
    ensures read { OnOk result ((rows : List Row) → Leaves reader.old rows
        → RowsRead width rows columns.old columns.new) }
    ensures fault { IfErr result (λ fault. (rows : List Row) → Leaves reader.old rows
        → IsUneven width rows fault) }
{
    let mut row = ByteRecord::new(alloc);
    while next_row(reader, &mut row)? {
        if row.len() != width {
            return Err(TableFault::Length);
        }
        match add_row(alloc, columns, &row) {
            Ok(()) => {}
            Err(_) => return Err(TableFault::Memory),
        }
    }
    Ok(())
}

/// Whether all columns' cells have read, or what is wrong with them.
fn judge(columns: &[TableColumn]) -> Result<(), TableFault>
    ensures { IsJudged (worst_of Verdict.Fine columns.now) result }
{
    let mut verdict = Verdict::Fine;
    for column in columns {
        verdict = verdict.and(column.verdict);
    }
    match verdict {
        Verdict::Fine => Ok(()),
        Verdict::Range => Err(TableFault::Range),
        Verdict::Syntax => Err(TableFault::Syntax),
    }
}

/// The struct of the columns' lists.
fn into_struct(alloc: Global, columns: Vec<TableColumn>) -> Result<Val, AllocError>
    ensures { IfOk result (λ v. view_val v ≡ struct (values (map listed_of columns.items))) }
{
    let mut lists = Vals::new(alloc);
    for column in columns {
        let TableColumn { cells, .. } = column;
        lists.push(Val::List(cells.into_column()))?;
    }
    Ok(Val::Struct(lists))
}

/// The wanted columns, with what they read of all records behind the first.
fn read_columns(
    alloc: Global,
    content: &[u8],
    wanted: &Wanted,
) -> Result<Vec<TableColumn>, TableFault>
    requires { AreCells wanted.now }
    ensures read { IfOk result (λ columns. AllRead content.now wanted.now columns.items) }
    ensures fault { IfErr result (TableFails content.now wanted.now) }
{
    let mut reader = rows(alloc, content);
    let mut header = ByteRecord::new(alloc);
    if !next_row(&mut reader, &mut header)? {
        return Err(TableFault::Form);
    }
    let Ok(chosen) = choose(alloc, wanted, &header) else {
        return Err(TableFault::Memory);
    };
    let Some(mut columns) = chosen else {
        return Err(TableFault::Form);
    };
    match read_rows(alloc, &mut reader, header.len(), &mut columns) {
        Ok(()) => Ok(columns),
        Err(fault) => Err(fault),
    }
}

/// The value of a table: the struct of the wanted columns, each a list of its cells, record by record; or the first
/// reason of `TableFault` why the content gives none. Records are those that the library csv reads, the first of them
/// having the columns' names; of those, one pass keeps the columns alone.
pub fn read_table(alloc: Global, content: &[u8], wanted: &Wanted) -> Result<Val, TableFault>
    requires { AreCells wanted.now }
    ensures value { IfOk result (λ v. TableReads content.now wanted.now (view_val v)) }
    ensures fault { IfErr result (TableFails content.now wanted.now) }
{
    let columns = read_columns(alloc, content, wanted)?;
    if let Err(fault) = judge(&columns) {
        return Err(fault);
    }
    match into_struct(alloc, columns) {
        Ok(value) => Ok(value),
        Err(_) => Err(TableFault::Memory),
    }
}
