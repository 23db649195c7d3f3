ghost use Rattle.std.specs.Prelude.{◌≡◌, get_or, IfOk};
ghost use Rattle.row_core.specs.Values.{value_cmp};
ghost use Rattle.row_core.specs.declared.value.Value.TheVariants.{Null};
ghost use Rattle.op_unary.specs.Cells.{or_null};

use row_core::{NoMemory, Row, Value};
use std::alloc::Global;
use std::cmp::Ordering;

/// The value in a column, none where the row has no such column.
pub fn cell(row: &Row, column: u32) -> Option<&Value>
    ensures { or_null result ≡ get_or row.now column Null }
{
    row.as_slice().get(column as usize)
}

/// The order of two values, where none is as Null.
pub fn cmp_cells(a: Option<&Value>, b: Option<&Value>) -> Ordering
    ensures { result ≡ value_cmp (or_null a.entry) (or_null b.entry) }
{
    match (a, b) {
        (Some(a), Some(b)) => a.cmp(b),
        (Some(a), None) => a.cmp(&Value::Null),
        (None, Some(b)) => Value::Null.cmp(b),
        (None, None) => Ordering::Equal,
    }
}

/// A copy of a value, Null where there is none.
pub fn copied(alloc: Global, value: Option<&Value>) -> Result<Value, NoMemory>
    ensures { IfOk result (λ copy. copy ≡ or_null value.entry) }
{
    match value {
        Some(value) => value.copy(alloc),
        None => Ok(Value::Null),
    }
}
