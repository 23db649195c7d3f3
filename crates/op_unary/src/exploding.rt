ghost use Rattle.std.specs.Prelude.{◌≡◌, ◌<◌, ◌++◌, [], ◌∷◌, length, map, slice_set, IfOk, OnOk};
ghost use Rattle.row_core.specs.declared.value.Value.TheVariants.{Text as text_cell};
ghost use Rattle.plan_model.specs.Operators.{exploded, pieces};

use row_core::{Bytes, NoMemory, Row, Rows, Value};
use std::alloc::Global;

/// Appends the row once for each piece of the text in the column, with the piece in its place.
pub fn explode_row(
    alloc: Global,
    out: &mut Rows,
    column: u32,
    separator: u8,
    row: &Row,
) -> Result<(), NoMemory>
    requires { column < length row.now }
    ensures { OnOk result (out.new ≡ out.old ++ exploded column separator (row.now ∷ [])) }
{
    match &row.as_slice()[column as usize] {
        Value::Null => Ok(()),
        Value::Int(number) => {
            let shown = number.to_string(alloc)?;
            push_pieces(alloc, out, column, separator, row, shown.as_bytes())
        }
        Value::Text(text) => push_pieces(alloc, out, column, separator, row, text.as_slice()),
    }
}

fn push_pieces(
    alloc: Global,
    out: &mut Rows,
    column: u32,
    separator: u8,
    row: &Row,
    text: &[u8],
) -> Result<(), NoMemory>
    requires { column < length row.now }
    ensures { OnOk result (out.new ≡ out.old
        ++ map (λ piece. slice_set row.now column (text_cell piece)) (pieces separator text.now)) }
{
    for piece in text.split(|byte| *byte == separator) {
        out.push(with_piece(alloc, row, column, piece)?)?;
    }
    Ok(())
}

// The row with this text in the column.
fn with_piece(alloc: Global, row: &Row, column: u32, piece: &[u8]) -> Result<Row, NoMemory>
    requires { column < length row.now }
    ensures { IfOk result (λ made. made ≡ slice_set row.now column (text_cell piece.now)) }
{
    let values = row.as_slice();
    let mut made = Row::with_capacity(alloc, values.len())?;
    push_copies(alloc, &mut made, &values[..column as usize])?;
    made.push(Value::Text(Bytes::from_slice(alloc, piece)?))?;
    push_copies(alloc, &mut made, &values[column as usize + 1..])?;
    Ok(made)
}

fn push_copies(alloc: Global, row: &mut Row, values: &[Value]) -> Result<(), NoMemory>
    ensures { OnOk result (row.new ≡ row.old ++ values.now) }
{
    for value in values {
        row.push(value.copy(alloc)?)?;
    }
    Ok(())
}
