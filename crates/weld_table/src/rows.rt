//! The records of a table's content, one after another, by the library csv.

ghost use Rattle.std.specs.Prelude.{◌≡◌, ◌<◌, true, List, IfOk, IfErr};
ghost use Rattle.csv.specs.Records.{fields_of};
ghost use Rattle.weld_table.specs.Table.{Row, rows_of};
ghost use Rattle.weld_table.specs.Rows.{Leaves, Takes, bytes_of, count_of};

use crate::fault::TableFault;
use csv::{ByteRecord, Reader, ReaderBuilder};
use std::alloc::Global;

/// The records of the content.
pub(crate) fn rows(alloc: Global, content: &[u8]) -> Reader<&[u8]>
    ensures { Leaves result (rows_of content.now) }
{
    ReaderBuilder::new()
        .has_headers(false)
        .flexible(true)
        .from_reader(alloc, content)
}

/// Puts the next record into `row`, and answers whether there is one. Want of memory is the one error: a read from memory
/// doesn't fail otherwise, though csv doesn't say so.
pub(crate) fn next_row(reader: &mut Reader<&[u8]>, row: &mut ByteRecord) -> Result<bool, TableFault>
    ensures taken { IfOk result (λ found. (rows : List Row) → Leaves reader.old rows
        → Takes found (fields_of row.new) rows (Leaves reader.new)) }
    ensures less { IfOk result (λ found. found ≡ true → (rows : List Row) → Leaves reader.old rows
        → count_of (bytes_of reader.new) < count_of (bytes_of reader.old)) }
    ensures memory { IfErr result (λ fault. fault ≡ TableFault.Memory) }
{
    let Ok(found) = reader.read_byte_record(row) else {
        return Err(TableFault::Memory);
    };
    Ok(found)
}
