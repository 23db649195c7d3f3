ghost use Rattle.std.specs.Prelude.{◌≡◌, map, IfOk};
ghost use Rattle.std.specs.List.{prefix_len};
ghost use Rattle.std.specs.List.Sorted.{IsPermutation, IsSorted};
ghost use Rattle.std.specs.Ordering.{nat_cmp, ordering_then};
ghost use Rattle.row_core.specs.Values.{row_cmp, same_row};
ghost use Rattle.plan_model.specs.Operators.{key_of};
ghost use Rattle.op_unary.specs.Hashes.{hash_cmp, hash_of};
ghost use Rattle.op_unary.specs.Keys.{key_in, rows_of, AreHashed};

use crate::cells::{cell, cmp_cells};
use crate::hashing::hash_key;
use crate::keyed::Keyed;
use row_core::{NoMemory, Row};
use std::alloc::Global;
use std::cmp::Ordering;

/// The order of two rows by their keys, the values in these columns.
pub fn cmp_keys(keys: &[u32], a: &Row, b: &Row) -> Ordering
    ensures { result ≡ row_cmp (key_of keys.now a.now) (key_of keys.now b.now) }
{
    match keys.split_first() {
        None => Ordering::Equal,
        Some((key, others)) => match cmp_cells(cell(a, *key), cell(b, *key)) {
            Ordering::Equal => cmp_keys(others, a, b),
            unequal => unequal,
        },
    }
}

/// The rows in the order of their keys' hashes, and of their keys where hashes are equal, so that those
/// of one key stand together.
pub fn by_key<'a>(alloc: Global, keys: &[u32], rows: &'a [Row]) -> Result<Vec<Keyed<'a>>, NoMemory>
    ensures rows { IfOk result (λ sorted. IsPermutation rows.now (rows_of sorted.items)) }
    ensures order { IfOk result (λ sorted. IsSorted hash_cmp (map (key_in keys.now) sorted.items)) }
    ensures hashes { IfOk result (λ sorted. AreHashed keys.now sorted.items) }
{
    let mut sorted = hashed(alloc, keys, rows)?;
    sorted.sort_unstable_by(|a, b| cmp_keyed(keys, a, b));
    Ok(sorted)
}

// The rows, each with its key's hash.
fn hashed<'a>(alloc: Global, keys: &[u32], rows: &'a [Row]) -> Result<Vec<Keyed<'a>>, NoMemory>
    ensures rows { IfOk result (λ all. rows_of all.items ≡ rows.now) }
    ensures hashes { IfOk result (λ all. AreHashed keys.now all.items) }
{
    let mut all = Vec::with_capacity(alloc, rows.len())?;
    for row in rows {
        all.push(keyed(keys, row))?;
    }
    Ok(all)
}

fn keyed<'a>(keys: &[u32], row: &'a Row) -> Keyed<'a>
    ensures row { result.row.now ≡ row.now }
    ensures hash { result.hash ≡ hash_of (key_of keys.now result.row.now) }
{
    let hash = hash_key(keys, row);
    Keyed { hash, row }
}

fn cmp_keyed(keys: &[u32], a: &Keyed, b: &Keyed) -> Ordering
    ensures { result ≡ ordering_then (nat_cmp a.now.hash b.now.hash)
        (row_cmp (key_in keys.now a.now) (key_in keys.now b.now)) }
{
    match a.hash.cmp(&b.hash) {
        Ordering::Equal => cmp_keys(keys, a.row, b.row),
        unequal => unequal,
    }
}

/// How many rows at the front have the key of the first.
pub fn run_length(keys: &[u32], first: &Row, rows: &[Keyed]) -> usize
    ensures { result ≡ prefix_len
        (λ keyed. same_row (key_of keys.now first.now) (key_in keys.now keyed)) rows.now }
{
    rows.iter()
        .take_while(|keyed| cmp_keys(keys, first, keyed.row).is_eq())
        .count()
}
