ghost use Rattle.std.specs.Prelude.{◌≡◌, IfOk};
ghost use Rattle.csv.specs.Records.{fields_of};
ghost use Rattle.plan_model.specs.Tables.{row_of, table_rows};
ghost use Rattle.row_view.specs.Views.{seen};

use crate::reading::{read_record, record_reader};
use crate::record::read_field;
use csv::ByteRecord;
use plan_model::{Kind, Kinds};
use row_core::{Bytes, NoMemory, Row, Rows, Value};
use row_view::ValueRef;
use std::alloc::{AllocError, Global};

/// The rows of a table's file, each with a value for each column. Any bytes are a table, ragged
/// ones too: no record is refused. docs/FORMATS.md says how they are read.
pub fn read_table(alloc: Global, bytes: &Bytes, columns: &Kinds) -> Result<Rows, NoMemory>
    ensures { IfOk result (λ rows. rows ≡ table_rows columns.now bytes.now) }
{
    read_rows(alloc, bytes.as_slice(), columns.as_slice())
}

// The rows of these bytes.
fn read_rows(alloc: Global, text: &[u8], kinds: &[Kind]) -> Result<Rows, NoMemory>
    ensures { IfOk result (λ rows. rows ≡ table_rows kinds.now text.now) }
{
    let mut reader = record_reader(alloc, text);
    let mut record = ByteRecord::new(alloc);
    let mut rows = Rows::new(alloc);
    for _ in 0..u64::MAX {
        let found = read_record(&mut reader, &mut record)?;
        if !found {
            return Ok(rows);
        }
        rows.push(read_row(alloc, &record, kinds)?)?;
    }
    Err(AllocError)
}

// A record as a row.
fn read_row(alloc: Global, cells: &ByteRecord, kinds: &[Kind]) -> Result<Row, NoMemory>
    ensures { IfOk result (λ row. row ≡ row_of kinds.now (fields_of cells.now)) }
{
    let mut row = Row::with_capacity(alloc, kinds.len())?;
    for (place, kind) in kinds.iter().enumerate() {
        row.push(owned(alloc, read_field(cells, place, *kind))?)?;
    }
    Ok(row)
}

// The value that is seen, as one of its own.
fn owned(alloc: Global, value: ValueRef) -> Result<Value, NoMemory>
    ensures { IfOk result (λ made. made ≡ seen value.entry) }
{
    match value {
        ValueRef::Null => Ok(Value::Null),
        ValueRef::Int(number) => Ok(Value::Int(number)),
        ValueRef::Text(text) => Ok(Value::Text(Bytes::from_slice(alloc, text)?)),
    }
}
