ghost use Rattle.std.specs.Prelude.{◌≡◌, IfOk};
ghost use Rattle.row_core.specs.Hashing.{key_of};
ghost use Rattle.row_core.specs.Values.{row_cmp};
ghost use Rattle.operator_laws.specs.Applied.{left_columns, right_columns};
ghost use Rattle.op_join.specs.Keys.{compared_key, has_null};

use crate::cells::{cell, cmp_cells, lacks};
use crate::key_prefix::{KeyPrefix, cmp_prefixes, prefix_of};
use row_core::{NoMemory, Row};
use std::alloc::Global;
use std::cmp::Ordering;

/// A row with the first value of its key beside it, which most comparisons look at alone.
#[derive(Clone, Copy, Drop)]
pub struct Keyed<'a> {
    pub prefix: KeyPrefix<'a>,
    pub row: &'a Row,
}

/// The columns of the key pairs on the left.
pub fn left_columns(alloc: Global, keys: &[(u32, u32)]) -> Result<Vec<u32>, NoMemory>
    ensures { IfOk result (λ columns. columns.items ≡ left_columns keys.now) }
{
    keys.iter().map(|pair| pair.0).collect(alloc)
}

/// The columns of the key pairs on the right.
pub fn right_columns(alloc: Global, keys: &[(u32, u32)]) -> Result<Vec<u32>, NoMemory>
    ensures { IfOk result (λ columns. columns.items ≡ right_columns keys.now) }
{
    keys.iter().map(|pair| pair.1).collect(alloc)
}

/// A row with the first value of its key in these columns, Null in a key of none.
pub fn with_prefix<'a>(columns: &[u32], row: &'a Row) -> Keyed<'a>
    ensures row { result.row.now ≡ row.now }
    ensures key { compared_key columns.now result ≡ key_of columns.now row.now }
{
    let prefix = match columns.first() {
        None => KeyPrefix::Null,
        Some(column) => prefix_of(cell(row, *column)),
    };
    Keyed { prefix, row }
}

/// The order of two rows by their keys, each in its columns.
pub fn cmp_keyed(columns: &[u32], a: &Keyed, others: &[u32], b: &Keyed) -> Ordering
    ensures { result ≡ row_cmp (compared_key columns.now a.now) (compared_key others.now b.now) }
{
    match (columns.split_first(), others.split_first()) {
        (None, None) => Ordering::Equal,
        (None, Some(_)) => Ordering::Less,
        (Some(_), None) => Ordering::Greater,
        (Some((_, columns)), Some((_, others))) => match cmp_prefixes(a.prefix, b.prefix) {
            Ordering::Equal => cmp_keys(columns, a.row, others, b.row),
            unequal => unequal,
        },
    }
}

fn cmp_keys(columns: &[u32], a: &Row, others: &[u32], b: &Row) -> Ordering
    ensures { result ≡ row_cmp (key_of columns.now a.now) (key_of others.now b.now) }
{
    match (columns.split_first(), others.split_first()) {
        (None, None) => Ordering::Equal,
        (None, Some(_)) => Ordering::Less,
        (Some(_), None) => Ordering::Greater,
        (Some((x, columns)), Some((y, others))) => {
            match cmp_cells(cell(a, *x), cell(b, *y)) {
                Ordering::Equal => cmp_keys(columns, a, others, b),
                unequal => unequal,
            }
        }
    }
}

/// Whether a value of the row's key is Null, so that nothing matches it.
pub fn has_null(columns: &[u32], row: &Row) -> bool
    ensures { result ≡ has_null columns.now row.now }
{
    columns.iter().any(|column| lacks(cell(row, *column)))
}
