ghost use Rattle.std.specs.Prelude.{◌≡◌, ◌++◌, IfOk, OnOk};
ghost use Rattle.plan_model.specs.Joins.{nulls};

use row_core::{NoMemory, Row, Value};
use std::alloc::Global;

/// Copies of both, one after the other.
pub fn concat(alloc: Global, first: &Row, second: &Row) -> Result<Row, NoMemory>
    ensures { IfOk result (λ row. row ≡ first.now ++ second.now) }
{
    let mut row = Row::with_capacity(alloc, first.len().saturating_add(second.len()))?;
    push_values(alloc, &mut row, first.as_slice())?;
    push_values(alloc, &mut row, second.as_slice())?;
    Ok(row)
}

fn push_values(alloc: Global, row: &mut Row, values: &[Value]) -> Result<(), NoMemory>
    ensures { OnOk result (row.new ≡ row.old ++ values.now) }
{
    for value in values {
        row.push(value.copy(alloc)?)?;
    }
    Ok(())
}

/// A row of so many Nulls.
pub fn null_row(alloc: Global, width: u32) -> Result<Row, NoMemory>
    ensures { IfOk result (λ row. row ≡ nulls width) }
{
    let mut row = Row::new(alloc);
    for _place in 0..width {
        row.push(Value::Null)?;
    }
    Ok(row)
}
