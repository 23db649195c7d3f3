ghost use Rattle.std.specs.Prelude.{◌≡◌, ◌++◌, OnOk};
ghost use Rattle.std.specs.List.{AllByRecursion};
ghost use Rattle.row_core.specs.Encoding.{values_bytes, TextFits};
ghost use Rattle.row_core.specs.Hashing.{key_of};
ghost use Rattle.row_view.specs.Views.{row_seen};

use row_core::{Bytes, NoMemory, texts_fit};
use row_steps::value_in;
use row_view::{ValueRef, put_value};

/// Adds the bytes of the row's values in these columns at the end.
pub fn put_key(bytes: &mut Bytes, columns: &[u32], row: &[ValueRef]) -> Result<(), NoMemory>
    requires { AllByRecursion TextFits (row_seen row.now) }
    ensures { OnOk result
        (bytes.new ≡ bytes.old ++ values_bytes (key_of columns.now (row_seen row.now))) }
{
    texts_fit();
    for column in columns {
        put_value(bytes, value_in(row, *column))?;
    }
    Ok(())
}
