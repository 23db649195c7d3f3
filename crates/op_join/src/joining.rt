ghost use Rattle.std.specs.Prelude.{◌≡◌, ◌++◌, IfOk};
ghost use Rattle.row_core.specs.Bags.{SameBag};
ghost use Rattle.plan_model.specs.Joins.{joined, matches, nulls};
ghost use Rattle.op_join.specs.Sides.{outputs};
ghost use Rattle.op_join.specs.declared.rule.Rule.TheVariants.{PaddedIfUnmatched};

use crate::probe::Probe;
use crate::rule::{Rule, left_rule};
use plan_model::{JoinKind, KeyPairs, Widths};
use row_core::{NoMemory, Row, Rows};
use std::alloc::Global;

/// The rows of a join, in some order. Rows match where at each key pair the two values are equal
/// and not Null. Where a row gives Nulls for the other side, it gives as many as that side's width.
pub fn join(
    alloc: Global,
    kind: JoinKind,
    keys: &KeyPairs,
    widths: Widths,
    left: &Rows,
    right: &Rows,
) -> Result<Rows, NoMemory>
    ensures { IfOk result (λ given. SameBag given
        (joined keys.now widths.left widths.right left.now right.now kind)) }
{
    let keys = keys.as_slice();
    let left = left.as_slice();
    let right = right.as_slice();
    match kind {
        JoinKind::Inner | JoinKind::Left | JoinKind::Semi | JoinKind::Anti => {
            Probe::by_left(alloc, left_rule(kind), widths.right, keys, right)?.rows(alloc, left)
        }
        JoinKind::Right => {
            let rule = Rule::MirroredOrPadded;
            Probe::by_right(alloc, rule, widths.left, keys, left)?.rows(alloc, right)
        }
        JoinKind::Full => {
            let unmatched = unmatched_right(alloc, widths, keys, left, right)?;
            let rule = Rule::PairsOrPadded;
            let rows = Probe::by_left(alloc, rule, widths.right, keys, right)?.rows(alloc, left)?;
            append(rows, unmatched)
        }
    }
}

// The right rows without a match, each behind Nulls.
fn unmatched_right(
    alloc: Global,
    widths: Widths,
    keys: &[(u32, u32)],
    left: &[Row],
    right: &[Row],
) -> Result<Rows, NoMemory>
    ensures { IfOk result (λ rows. SameBag rows (outputs PaddedIfUnmatched (nulls widths.left)
        (λ row other. matches keys.now other row) right.now left.now)) }
{
    Probe::by_right(alloc, Rule::PaddedIfUnmatched, widths.left, keys, left)?.rows(alloc, right)
}

fn append(rows: Rows, more: Rows) -> Result<Rows, NoMemory>
    ensures { IfOk result (λ all. all ≡ rows ++ more) }
{
    let mut all = rows.into_vec();
    all.append(&mut more.into_vec())?;
    Ok(Rows::from_vec(all))
}
