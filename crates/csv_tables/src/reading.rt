ghost use Rattle.std.specs.Prelude.{ℕ, [], List, Some, true, ◌≡◌, IfOk};
ghost use Rattle.csv.specs.Reading.{error_kind, stops_reader};
ghost use Rattle.csv.specs.Records.{fields_of};
ghost use Rattle.csv_tables.specs.Reading.{HasRead, TakesRecord};

use csv::{ByteRecord, Error, ErrorKind, Reader, ReaderBuilder};
use row_core::NoMemory;
use std::alloc::{AllocError, Global};

/// A reader of the records of a table's file.
pub fn record_reader(alloc: Global, text: &[u8]) -> Reader<&[u8]>
    ensures { HasRead (λ s. Some s.now) result text.now [] }
{
    ReaderBuilder::new()
        .has_headers(false)
        .flexible(true)
        .from_reader(alloc, text)
}

/// Reads the next record, or answers that none is left.
pub fn read_record(reader: &mut Reader<&[u8]>, cells: &mut ByteRecord) -> Result<bool, NoMemory>
    requires { (text : List ℕ) × ((records : List (List (List ℕ)))
        × HasRead (λ s. Some s.now) reader.old text records) }
    ensures { IfOk result (λ found. (text : List ℕ) (records : List (List (List ℕ)))
        → HasRead (λ s. Some s.now) reader.old text records
        → TakesRecord found (λ s. Some s.now) reader.new text records (fields_of cells.new)) }
{
    match reader.read_byte_record(cells) {
        Ok(found) => Ok(found),
        Err(error) => Err(no_memory(error)),
    }
}

// The answer to an error that is no refusal of a record. A slice is read without fail, so what
// stops its reader is want of memory.
fn no_memory(error: Error) -> NoMemory
    requires { stops_reader (error_kind error) ≡ true }
{
    match error.into_kind() {
        ErrorKind::Io(_) | ErrorKind::OutOfMemory => AllocError,
        ErrorKind::Utf8 { .. }
        | ErrorKind::UnequalLengths { .. }
        | ErrorKind::Serialize(_)
        | ErrorKind::Deserialize { .. } => unreachable!(),
    }
}
