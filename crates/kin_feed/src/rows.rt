//! The rows of the bytes, one after another.

ghost use Rattle.std.specs.Prelude.{ℕ, List, [], IfOk};
ghost use Rattle.csv.specs.Records.{fields_of};
ghost use Rattle.kin_feed.specs.RowsRead.{HasRead, ReadsOn};

use csv::{ByteRecord, Reader, ReaderBuilder};
use kin_ids::Memory;
use std::alloc::Global;

/// A reader of the rows of these bytes. None is read yet.
pub fn rows_in(alloc: Global, bytes: &[u8]) -> Reader<&[u8]>
    ensures { HasRead bytes.now [] result }
{
    ReaderBuilder::new()
        .has_headers(false)
        .flexible(true)
        .from_reader(alloc, bytes)
}

/// Reads the next row, and answers whether there was one. Bytes in memory fail only for want of memory.
pub fn next_row(reader: &mut Reader<&[u8]>, row: &mut ByteRecord) -> Result<bool, Memory>
    ensures { IfOk result (λ found. (bytes : List ℕ) (rows : List (List (List ℕ)))
        → HasRead bytes rows reader.old → ReadsOn found bytes rows (fields_of row.new) reader.new) }
{
    let Ok(found) = reader.read_byte_record(row) else {
        return Err(Memory);
    };
    Ok(found)
}
