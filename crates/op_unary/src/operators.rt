ghost use Rattle.std.specs.Prelude.{◌∷◌, [], All, IfOk, IsTrue, length};
ghost use Rattle.row_core.specs.Bags.{SameBag};
ghost use Rattle.operator_laws.specs.Applied.{applied};
ghost use Rattle.plan_model.specs.Checks.{columns_fit};
ghost use Rattle.plan_model.specs.Operators.{is_unary};

use crate::aggregating::aggregate;
use crate::by_row::by_row;
use crate::each_once::distinct;
use plan_model::Op;
use row_core::{NoMemory, Rows};
use std::alloc::Global;

/// The rows that an operator gives on these, in some order. A union is given the rows of all its
/// inputs, and gives them. The operator is no source, no join and no sink, and names only columns
/// that each row has.
pub fn apply(alloc: Global, op: &Op, rows: &Rows) -> Result<Rows, NoMemory>
    requires unary { IsTrue (is_unary op.now) }
    requires columns { All (λ row. IsTrue (columns_fit op.now (length row ∷ []))) rows.now }
    ensures { IfOk result (λ given. SameBag given (applied op.now rows.now)) }
{
    match op {
        Op::Aggregate { keys, aggs } => {
            aggregate(alloc, keys.as_slice(), aggs.as_slice(), rows.as_slice())
        }
        Op::Distinct => distinct(alloc, rows.as_slice()),
        Op::Filter { .. } | Op::Project { .. } | Op::Explode { .. } | Op::Union => {
            by_row(alloc, op, rows.as_slice())
        }
        Op::Source { .. } | Op::Join { .. } | Op::Sink { .. } => unreachable!(),
    }
}
