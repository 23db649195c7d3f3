ghost use Rattle.std.specs.Prelude.{◌≡◌, ◌≤◌, ◌++◌, List, IfOk};
ghost use Rattle.std.specs.List.{AllByRecursion};
ghost use Rattle.bag_laws.specs.Rows.{OneRow};
ghost use Rattle.hash_join.specs.Joined.{probe_gives};
ghost use Rattle.hash_join.specs.Keys.{columns_on};
ghost use Rattle.hash_join.specs.Rules.{probed, rule_of, width_by};
ghost use Rattle.hash_join.specs.Tables.{HoldsTable};
ghost use Rattle.plan_model.specs.Joins.{joined};
ghost use Rattle.plan_model.specs.Plans.{join_width};
ghost use Rattle.plan_model.specs.declared.side.Side.TheVariants.{Left as LeftSide, Right as RightSide};
ghost use Rattle.row_core.specs.Bags.{SameBag};
ghost use Rattle.row_core.specs.Values.{width_limit};
ghost use Rattle.row_view.specs.Encoded.{RowOf};

use crate::row_buffer::RowBuffer;
use hash_join::{BuildRows, BuildTable, Joiner, Probe, key_columns};
use plan_model::{JoinKind, KeyPairs, Side, Widths};
use row_core::{Columns, NoMemory};
use row_steps::push_rows;
use row_view::EncodedRows;
use std::alloc::Global;

/// The rows of a join, in some order, of sides that have these widths. Rows match where at each key
/// pair the two values are equal and not Null.
pub fn join(
    alloc: Global,
    kind: JoinKind,
    keys: &KeyPairs,
    widths: Widths,
    left: &EncodedRows,
    right: &EncodedRows,
) -> Result<EncodedRows, NoMemory>
    requires left { AllByRecursion (RowOf widths.left) left.now }
    requires right { AllByRecursion (RowOf widths.right) right.now }
    requires narrow { join_width kind widths.left widths.right ≤ width_limit }
    ensures { IfOk result (λ given. SameBag given
        (joined keys.now widths.left widths.right left.now right.now kind)) }
{
    let width = kind.width(u64::from(widths.left), u64::from(widths.right)) as u32;
    match kind {
        JoinKind::Right => {
            let rows = by_right(alloc, kind, keys, widths, left, right, width)?;
            Ok(rows)
        }
        JoinKind::Full => {
            let rows = by_left(alloc, kind, keys, widths, left, right, width)?;
            let more = by_right(alloc, kind, keys, widths, left, right, width)?;
            let all = concatenated(alloc, width, &rows, &more)?;
            Ok(all)
        }
        _ => {
            let rows = by_left(alloc, kind, keys, widths, left, right, width)?;
            Ok(rows)
        }
    }
}

// What the left rows give, rows of this width.
fn by_left(
    alloc: Global,
    kind: JoinKind,
    keys: &KeyPairs,
    widths: Widths,
    left: &EncodedRows,
    right: &EncodedRows,
    width: u32,
) -> Result<EncodedRows, NoMemory>
    requires left { AllByRecursion (RowOf widths.left) left.now }
    requires right { AllByRecursion (RowOf widths.right) right.now }
    requires width { width_by (rule_of kind LeftSide) widths.left widths.right ≡ width }
    requires narrow { width ≤ width_limit }
    ensures wide { IfOk result (λ given. AllByRecursion (RowOf width) given) }
    ensures given { IfOk result (λ given. given ≡ probed (rule_of kind LeftSide) LeftSide
        widths.right (columns_on LeftSide keys.now) (columns_on RightSide keys.now)
        right.now left.now) }
{
    let columns = key_columns(alloc, keys, Side::Right)?;
    let table = build(alloc, columns, widths.right, right)?;
    let probe = Probe::new(alloc, kind, Side::Left, keys, &table)?;
    let given = probe_rows(alloc, &probe, widths.left, left, width)?;
    Ok(given)
}

// What the right rows give, rows of this width.
fn by_right(
    alloc: Global,
    kind: JoinKind,
    keys: &KeyPairs,
    widths: Widths,
    left: &EncodedRows,
    right: &EncodedRows,
    width: u32,
) -> Result<EncodedRows, NoMemory>
    requires left { AllByRecursion (RowOf widths.left) left.now }
    requires right { AllByRecursion (RowOf widths.right) right.now }
    requires width { width_by (rule_of kind RightSide) widths.right widths.left ≡ width }
    requires narrow { width ≤ width_limit }
    ensures wide { IfOk result (λ given. AllByRecursion (RowOf width) given) }
    ensures given { IfOk result (λ given. given ≡ probed (rule_of kind RightSide) RightSide
        widths.left (columns_on RightSide keys.now) (columns_on LeftSide keys.now)
        left.now right.now) }
{
    let columns = key_columns(alloc, keys, Side::Left)?;
    let table = build(alloc, columns, widths.left, left)?;
    let probe = Probe::new(alloc, kind, Side::Right, keys, &table)?;
    let given = probe_rows(alloc, &probe, widths.right, right, width)?;
    Ok(given)
}

// What these rows of a width give with the built rows, rows of another.
fn probe_rows(
    alloc: Global,
    probe: &Probe,
    width: u32,
    rows: &EncodedRows,
    given_width: u32,
) -> Result<EncodedRows, NoMemory>
    requires rows { AllByRecursion (RowOf width) rows.now }
    requires width { width_by probe.now.rule width probe.now.table.now.width ≡ given_width }
    requires narrow { given_width ≤ width_limit }
    requires built { (built : List OneRow) × HoldsTable probe.now.table.now built }
    ensures wide { IfOk result (λ given. AllByRecursion (RowOf given_width) given) }
    ensures given { (built : List OneRow) → HoldsTable probe.now.table.now built
        → IfOk result (λ given. given ≡ probe_gives probe.now built rows.now) }
{
    let buffer = RowBuffer::new(alloc, given_width);
    let mut joiner = Joiner::new(alloc, probe, width, &[], buffer);
    push_rows(alloc, &[], rows, &mut joiner)?;
    let given = joiner.into_out();
    Ok(given.into_rows())
}

// The rows of a build side by these key columns.
fn build(
    alloc: Global,
    keys: Columns,
    width: u32,
    rows: &EncodedRows,
) -> Result<BuildTable, NoMemory>
    requires { AllByRecursion (RowOf width) rows.now }
    ensures width { IfOk result (λ table. table.width ≡ width) }
    ensures keys { IfOk result (λ table. table.keys ≡ keys) }
    ensures holds { IfOk result (λ table. HoldsTable table rows.now) }
{
    let mut built = BuildRows::new(alloc, width, keys);
    push_rows(alloc, &[], rows, &mut built)?;
    Ok(built.finish())
}

// These rows, and then those.
fn concatenated(
    alloc: Global,
    width: u32,
    rows: &EncodedRows,
    more: &EncodedRows,
) -> Result<EncodedRows, NoMemory>
    requires rows { AllByRecursion (RowOf width) rows.now }
    requires more { AllByRecursion (RowOf width) more.now }
    ensures { IfOk result (λ all. all ≡ rows.now ++ more.now) }
{
    let mut buffer = RowBuffer::new(alloc, width);
    push_rows(alloc, &[], rows, &mut buffer)?;
    push_rows(alloc, &[], more, &mut buffer)?;
    Ok(buffer.into_rows())
}
