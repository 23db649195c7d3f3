ghost use Rattle.std.specs.Prelude.{◌≡◌, length, map, IfOk, IsTrue};
ghost use Rattle.std.specs.List.{list_all};
ghost use Rattle.row_core.specs.Exprs.{columns_within, value_at};

use row_core::{Expr, NoMemory, Row, eval};
use std::alloc::Global;

/// The values of the expressions at the row.
pub fn project_row(alloc: Global, exprs: &[Expr], row: &Row) -> Result<Row, NoMemory>
    requires { IsTrue (list_all (columns_within (length row.now)) exprs.now) }
    ensures { IfOk result (λ made. made ≡ map (value_at row.now) exprs.now) }
{
    let mut made = Row::with_capacity(alloc, exprs.len())?;
    for expr in exprs {
        made.push(eval(alloc, expr, row)?)?;
    }
    Ok(made)
}
