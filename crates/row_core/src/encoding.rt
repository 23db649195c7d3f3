ghost use Rattle.std.specs.Prelude.{◌≡◌, ◌++◌, ◌≤◌, ℕ, List, length, IfOk, OnOk};
ghost use Rattle.std.specs.List.{AllByRecursion};
ghost use Rattle.row_core.specs.declared.value.Value.{Value as OneValue};
ghost use Rattle.row_core.specs.Encoding.{value_bytes, row_bytes, TextFits, ValueFits, RowFits};
ghost use Rattle.row_core.specs.Hashing.{key_of};
ghost use Rattle.row_core.specs.Values.{width_limit};

use crate::{Bytes, NoMemory, Row, Value};
use std::alloc::Global;

/// The row's bytes: its number of values, and the values. docs/FORMATS.md has the format.
pub fn encode_row(alloc: Global, row: &Row) -> Result<Bytes, NoMemory>
    requires width { length row.now ≤ width_limit }
    requires texts { AllByRecursion TextFits row.now }
    ensures spelled { IfOk result (λ bytes. bytes ≡ row_bytes row.now) }
    // So the bytes decode.
    ensures fits { OnOk result (RowFits row.now) }
{
    let mut bytes = Bytes::new(alloc);
    bytes.extend(&(row.len() as u16).to_be_bytes())?;
    for value in row.as_slice() {
        put_value(&mut bytes, value)?;
    }
    Ok(bytes)
}

/// What decodes may be encoded again, and its keys may be hashed.
pub fn texts_fit()
    ensures row { (row : List OneValue) → RowFits row → AllByRecursion TextFits row }
    ensures key { (row : List OneValue) (columns : List ℕ) → AllByRecursion TextFits row
        → AllByRecursion TextFits (key_of columns row) }
{}

fn put_value(bytes: &mut Bytes, value: &Value) -> Result<(), NoMemory>
    requires { TextFits value.now }
    ensures spelled { OnOk result (bytes.new ≡ bytes.old ++ value_bytes value.now) }
    ensures fits { OnOk result (ValueFits value.now) }
{
    match value {
        Value::Null => bytes.push(0)?,
        Value::Int(number) => {
            bytes.push(1)?;
            bytes.extend(&number.cast_unsigned().to_be_bytes())?;
        }
        Value::Text(text) => {
            bytes.push(2)?;
            bytes.extend(&(text.len() as u32).to_be_bytes())?;
            bytes.extend(text.as_slice())?;
        }
    }
    Ok(())
}
