ghost use Rattle.std.specs.Prelude.{◌≡◌, ◌+◌, ◌++◌, List};
ghost use Rattle.row_core.specs.Bags.{count_of as times_in};
ghost use Rattle.bag_laws.specs.Rows.{OneRow};

use row_core::{Row, Rows, cmp_rows};

/// How often a row stands in a list.
pub fn count_of(row: &Row, rows: &Rows) -> u64
    ensures { result ≡ times_in row.now rows.now }
{
    count_in(row, rows.as_slice()) as u64
}

fn count_in(row: &Row, rows: &[Row]) -> usize
    ensures { result ≡ times_in row.now rows.now }
{
    rows.iter()
        .filter(|other| cmp_rows(row, other).is_eq())
        .count()
}

/// Counts of a concatenation add.
pub fn counts_add()
    ensures { (row : OneRow) (rows others : List OneRow)
        → times_in row (rows ++ others) ≡ times_in row rows + times_in row others }
{}
