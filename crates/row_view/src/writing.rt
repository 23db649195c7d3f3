ghost use Rattle.std.specs.Prelude.{◌≡◌, ◌++◌, ◌≤◌, length, OnOk};
ghost use Rattle.std.specs.List.{AllByRecursion};
ghost use Rattle.row_core.specs.Encoding.{value_bytes, row_bytes, TextFits};
ghost use Rattle.row_core.specs.Values.{width_limit};
ghost use Rattle.row_view.specs.Views.{seen, row_seen};

use crate::ValueRef;
use row_core::{Bytes, NoMemory};

/// Adds the row's bytes at the end. docs/FORMATS.md has the format. After want of memory a part of
/// them may stand there.
pub fn put_row(bytes: &mut Bytes, row: &[ValueRef]) -> Result<(), NoMemory>
    requires width { length row.now ≤ width_limit }
    requires texts { AllByRecursion TextFits (row_seen row.now) }
    ensures { OnOk result (bytes.new ≡ bytes.old ++ row_bytes (row_seen row.now)) }
{
    bytes.extend(&(row.len() as u16).to_be_bytes())?;
    for value in row {
        put_value(bytes, *value)?;
    }
    Ok(())
}

/// Adds the value's bytes at the end.
pub fn put_value(bytes: &mut Bytes, value: ValueRef) -> Result<(), NoMemory>
    requires { TextFits (seen value) }
    ensures { OnOk result (bytes.new ≡ bytes.old ++ value_bytes (seen value.entry)) }
{
    match value {
        ValueRef::Null => bytes.push(0)?,
        ValueRef::Int(number) => {
            bytes.push(1)?;
            bytes.extend(&number.cast_unsigned().to_be_bytes())?;
        }
        ValueRef::Text(text) => {
            bytes.push(2)?;
            bytes.extend(&(text.len() as u32).to_be_bytes())?;
            bytes.extend(text)?;
        }
    }
    Ok(())
}
