ghost use Rattle.std.specs.Prelude.{◌≡◌, ◌++◌, map, OnOk};
ghost use Rattle.plan_model.specs.Sinks.{cell_text, line_of};
ghost use Rattle.csv_tables.specs.Writing.{AddsCell, HasCells, IsBetweenLines, text_in};

use csv::Writer;
use itoa::Buffer;
use row_core::{NoMemory, Value};
use std::alloc::AllocError;

/// Writes the line of a row out to the text. The writer's errors over a `Vec` come for want of
/// memory alone.
pub fn write_line(writer: &mut Writer<Vec<u8>>, row: &[Value]) -> Result<(), NoMemory>
    requires { IsBetweenLines writer.old }
    ensures text { OnOk result (text_in writer.new ≡ text_in writer.old ++ line_of row.now) }
    ensures between { OnOk result (IsBetweenLines writer.new) }
{
    write_cells(writer, row)?;
    if let Err(_) = writer.end_record() {
        return Err(AllocError);
    }
    if let Err(_) = writer.flush() {
        return Err(AllocError);
    }
    Ok(())
}

// Writes the cells of a row, with the commas between them.
fn write_cells(writer: &mut Writer<Vec<u8>>, row: &[Value]) -> Result<(), NoMemory>
    requires { IsBetweenLines writer.old }
    ensures { OnOk result (HasCells (text_in writer.old) (map cell_text row.now) writer.new) }
{
    for value in row {
        write_cell(writer, value)?;
    }
    Ok(())
}

// Writes one cell, after a comma where it is not the first.
fn write_cell(writer: &mut Writer<Vec<u8>>, value: &Value) -> Result<(), NoMemory>
    ensures { OnOk result (AddsCell writer.old writer.new (cell_text value.now)) }
{
    let mut digits = Buffer::new();
    if let Err(_) = writer.write_field(shown(value, &mut digits)) {
        return Err(AllocError);
    }
    Ok(())
}

// The text of a cell, which may stand in the buffer.
fn shown<'a>(value: &'a Value, digits: &'a mut Buffer) -> &'a [u8]
    ensures { result.now ≡ cell_text value.now }
{
    match value {
        Value::Null => &[],
        Value::Int(number) => digits.format(*number).as_bytes(),
        Value::Text(text) => text.as_slice(),
    }
}
