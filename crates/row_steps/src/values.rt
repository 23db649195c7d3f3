ghost use Rattle.std.specs.Prelude.{◌≡◌, length, map, IfOk, IsTrue};
ghost use Rattle.std.specs.List.{list_all};
ghost use Rattle.row_core.specs.Exprs.{columns_within, value_at};
ghost use Rattle.row_view.specs.Operands.{operand_seen};
ghost use Rattle.row_view.specs.Views.{row_seen};

use row_core::{Expr, NoMemory};
use row_view::{Operand, ValueRef, evaluate};
use std::alloc::Global;

/// The values of the expressions at the row, where they stand or made.
pub fn operands_at<'a>(
    alloc: Global,
    exprs: &'a [Expr],
    row: &[ValueRef<'a>],
) -> Result<Vec<Operand<'a>>, NoMemory>
    requires { IsTrue (list_all (columns_within (length row.now)) exprs.now) }
    ensures { IfOk result
        (λ made. map operand_seen made.items ≡ map (value_at (row_seen row.now)) exprs.now) }
{
    let mut made = Vec::with_capacity(alloc, exprs.len())?;
    for expr in exprs {
        made.push(evaluate(alloc, expr, row)?)?;
    }
    Ok(made)
}

/// These values as a row.
pub fn values_of<'b>(alloc: Global, operands: &'b [Operand]) -> Result<Vec<ValueRef<'b>>, NoMemory>
    ensures { IfOk result (λ row. row_seen row.items ≡ map operand_seen operands.now) }
{
    let mut row = Vec::with_capacity(alloc, operands.len())?;
    for operand in operands {
        row.push(operand.value())?;
    }
    Ok(row)
}
