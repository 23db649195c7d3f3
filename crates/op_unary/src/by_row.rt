ghost use Rattle.std.specs.Prelude.{◌≡◌, [], ◌∷◌, ◌++◌, length, All, IfOk, IsTrue, OnOk};
ghost use Rattle.operator_laws.specs.Applied.{applied};
ghost use Rattle.plan_model.specs.Checks.{columns_fit};
ghost use Rattle.plan_model.specs.Operators.{is_row_wise};

use crate::exploding::explode_row;
use crate::filtering::keep_if;
use crate::projecting::project_row;
use plan_model::Op;
use row_core::{NoMemory, Row, Rows};
use std::alloc::Global;

/// The rows of an operator that goes row by row.
pub fn by_row(alloc: Global, op: &Op, rows: &[Row]) -> Result<Rows, NoMemory>
    requires by_row { IsTrue (is_row_wise op.now) }
    requires columns { All (λ row. IsTrue (columns_fit op.now (length row ∷ []))) rows.now }
    ensures { IfOk result (λ out. out ≡ applied op.now rows.now) }
{
    let mut out = Rows::new(alloc);
    for row in rows {
        apply_to(alloc, &mut out, op, row)?;
    }
    Ok(out)
}

// Appends the operator's rows for one row.
fn apply_to(alloc: Global, out: &mut Rows, op: &Op, row: &Row) -> Result<(), NoMemory>
    requires by_row { IsTrue (is_row_wise op.now) }
    requires columns { IsTrue (columns_fit op.now (length row.now ∷ [])) }
    ensures { OnOk result (out.new ≡ out.old ++ applied op.now (row.now ∷ [])) }
{
    match op {
        Op::Filter { test } => keep_if(alloc, out, test, row),
        Op::Project { exprs } => out.push(project_row(alloc, exprs.as_slice(), row)?),
        Op::Explode { column, separator } => { explode_row(alloc, out, *column, *separator, row) }
        _ => out.push(row.copy(alloc)?),
    }
}
