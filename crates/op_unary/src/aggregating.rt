ghost use Rattle.std.specs.Prelude.{IfOk};
ghost use Rattle.row_core.specs.Bags.{SameBag};
ghost use Rattle.plan_model.specs.Operators.{aggregated};

use crate::groups::Groups;
use plan_model::Agg;
use row_core::{NoMemory, Row, Rows};
use std::alloc::Global;

/// One row for each key: the key, then the aggregates of its rows.
pub fn aggregate(alloc: Global, keys: &[u32], aggs: &[Agg], rows: &[Row]) -> Result<Rows, NoMemory>
    ensures { IfOk result (λ made. SameBag made (aggregated keys.now aggs.now rows.now)) }
{
    let groups = Groups::new(alloc, keys, aggs).with_rows(alloc, rows)?;
    groups.into_rows(alloc)
}
