ghost use Rattle.std.specs.Prelude.{◌≡◌, ◌≤◌, ◌+◌, ◌∷◌, [], length, IfOk, IsTrue};
ghost use Rattle.std.specs.List.{AllByRecursion};
ghost use Rattle.operator_laws.specs.Applied.{applied};
ghost use Rattle.operator_laws.specs.Texts.{ConstantsFit};
ghost use Rattle.plan_model.specs.Checks.{columns_fit};
ghost use Rattle.plan_model.specs.Operators.{aggregated, is_row_wise};
ghost use Rattle.plan_model.specs.Widths.{width_of};
ghost use Rattle.row_core.specs.Bags.{one_of_each};
ghost use Rattle.row_core.specs.Values.{width_limit};
ghost use Rattle.row_view.specs.Encoded.{RowOf};

use crate::row_buffer::RowBuffer;
use plan_model::{Agg, Op};
use row_core::NoMemory;
use row_groups::Groups;
use row_set::RowSet;
use row_steps::push_rows;
use row_view::EncodedRows;
use std::alloc::Global;

/// What an operator on one input gives on its rows, which have this width. Others pass rows on.
pub fn apply(alloc: Global, op: &Op, width: u32, rows: EncodedRows) -> Result<EncodedRows, NoMemory>
    requires rows { AllByRecursion (RowOf width) rows }
    requires columns { IsTrue (columns_fit op.now (width ∷ [])) }
    requires narrow { width ≤ width_limit }
    requires wide { width_of op.now (width ∷ []) ≤ width_limit }
    requires constants { ConstantsFit op.now }
    ensures { IfOk result (λ given. given ≡ applied op.now rows) }
{
    match op {
        Op::Filter { .. } => step(alloc, op, width, &rows),
        Op::Project { .. } => step(alloc, op, width, &rows),
        Op::Explode { .. } => step(alloc, op, width, &rows),
        Op::Aggregate { keys, aggs } => {
            aggregate(alloc, keys.as_slice(), aggs.as_slice(), width, &rows)
        }
        Op::Distinct => distinct(alloc, width, &rows),
        _ => Ok(rows),
    }
}

// The same of an operator that goes row by row.
fn step(alloc: Global, op: &Op, width: u32, rows: &EncodedRows) -> Result<EncodedRows, NoMemory>
    requires row_wise { IsTrue (is_row_wise op.now) }
    requires rows { AllByRecursion (RowOf width) rows.now }
    requires columns { IsTrue (columns_fit op.now (width ∷ [])) }
    requires narrow { width ≤ width_limit }
    requires wide { width_of op.now (width ∷ []) ≤ width_limit }
    requires constants { ConstantsFit op.now }
    ensures { IfOk result (λ given. given ≡ applied op.now rows.now) }
{
    let mut buffer = RowBuffer::new(alloc, op.width(&[width]) as u32);
    push_rows(alloc, &[op], rows, &mut buffer)?;
    Ok(buffer.into_rows())
}

fn aggregate(
    alloc: Global,
    keys: &[u32],
    aggs: &[Agg],
    width: u32,
    rows: &EncodedRows,
) -> Result<EncodedRows, NoMemory>
    requires rows { AllByRecursion (RowOf width) rows.now }
    requires narrow { length keys.now + length aggs.now ≤ width_limit }
    ensures { IfOk result (λ given. given ≡ aggregated keys.now aggs.now rows.now) }
{
    let mut groups = Groups::new(alloc, width, keys, aggs);
    push_rows(alloc, &[], rows, &mut groups)?;
    groups.into_rows()
}

fn distinct(alloc: Global, width: u32, rows: &EncodedRows) -> Result<EncodedRows, NoMemory>
    requires { AllByRecursion (RowOf width) rows.now }
    ensures { IfOk result (λ given. given ≡ one_of_each rows.now) }
{
    let mut set = RowSet::new(alloc, width);
    push_rows(alloc, &[], rows, &mut set)?;
    set.into_rows()
}
