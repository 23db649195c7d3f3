ghost use Rattle.std.specs.Prelude.{◌≡◌, get_or};
ghost use Rattle.row_core.specs.Exprs.{is_null};
ghost use Rattle.row_core.specs.Values.{value_cmp};
ghost use Rattle.row_core.specs.declared.value.Value.TheVariants.{Null};
ghost use Rattle.op_join.specs.Cells.{or_null};

use row_core::{Row, Value};
use std::cmp::Ordering;

/// The value in a column, none where the row has no such column.
pub fn cell(row: &Row, column: u32) -> Option<&Value>
    ensures { or_null result ≡ get_or row.now column Null }
{
    row.as_slice().get(column as usize)
}

/// Whether there is no value, or Null.
pub fn lacks(value: Option<&Value>) -> bool
    ensures { result ≡ is_null (or_null value.entry) }
{
    matches!(value, None | Some(Value::Null))
}

/// The order of two values, where none is as Null.
pub fn cmp_cells(a: Option<&Value>, b: Option<&Value>) -> Ordering
    ensures { result ≡ value_cmp (or_null a.entry) (or_null b.entry) }
{
    match (a, b) {
        (Some(a), Some(b)) => a.cmp(b),
        (Some(a), None) => a.cmp(&Value::Null),
        (None, Some(b)) => Value::Null.cmp(b),
        (None, None) => Ordering::Equal,
    }
}
