ghost use Rattle.std.specs.Prelude.{◌≡◌, true, [], get_or, length, IfOk};
ghost use Rattle.std.specs.Ordering.{nat_cmp, ordering_then};
ghost use Rattle.row_core.specs.Bags.{SameBag, one_of_each};
ghost use Rattle.row_core.specs.Values.{row_cmp};
ghost use Rattle.op_unary.specs.Distinct.{rows_at, ArePlaces, IsOrder, Rises};

use crate::hashed_row::HashedRow;
use crate::hashing::hash_row;
use row_core::{NoMemory, Row, cmp_rows};
use std::alloc::Global;
use std::cmp::Ordering;

/// The places of one of each row, by hash.
pub fn first_places(alloc: Global, rows: &[Row]) -> Result<Vec<HashedRow>, NoMemory>
    ensures places { IfOk result (λ firsts. ArePlaces rows.now firsts.items) }
    ensures each { IfOk result (λ firsts.
        SameBag (rows_at rows.now firsts.items) (one_of_each rows.now)) }
{
    let firsts = by_hash(rows, hashed(alloc, rows)?)?;
    if rises(firsts.as_slice()) {
        return Ok(firsts);
    }
    Ok(by_row(rows, firsts))
}

// By hashes alone, without what equals the one before. The sort finds in order what was so, and looks
// at no row.
fn by_hash(rows: &[Row], places: Vec<HashedRow>) -> Result<Vec<HashedRow>, NoMemory>
    requires { ArePlaces rows.now places.items }
    ensures places { IfOk result (λ left. ArePlaces rows.now left.items) }
    ensures same { IfOk result (λ left. SameBag (one_of_each (rows_at rows.now left.items))
        (one_of_each (rows_at rows.now places.items))) }
{
    let mut left = places;
    left.sort_by(|a, b| a.hash.cmp(&b.hash))?;
    left.dedup_by(|a, b| a.hash == b.hash && cmp_at(rows, a.place, b.place).is_eq());
    Ok(left)
}

// Whether each hash is greater than the one before. Then no two rows are equal. Else two rows have one
// hash, and others may stand between equal ones.
fn rises(places: &[HashedRow]) -> bool
    ensures { result ≡ true → Rises places.now }
{
    places.is_sorted_by(|a, b| a.hash < b.hash)
}

// One of each, by hashes and by rows where hashes are equal.
fn by_row(rows: &[Row], places: Vec<HashedRow>) -> Vec<HashedRow>
    requires { ArePlaces rows.now places.items }
    ensures places { ArePlaces rows.now result.items }
    ensures each { SameBag (rows_at rows.now result.items)
        (one_of_each (rows_at rows.now places.items)) }
{
    let mut firsts = places;
    firsts.sort_unstable_by(|a, b| cmp_hashed(rows, a, b));
    firsts.dedup_by(|a, b| a.hash == b.hash && cmp_at(rows, a.place, b.place).is_eq());
    firsts
}

// The places of all rows, in their order.
fn hashed(alloc: Global, rows: &[Row]) -> Result<Vec<HashedRow>, NoMemory>
    ensures order { IfOk result (λ all. IsOrder rows.now all.items) }
    ensures all { IfOk result (λ all. length all.items ≡ length rows.now) }
{
    let mut all = Vec::with_capacity(alloc, rows.len())?;
    for place in 0..rows.len() {
        let hash = hash_row(&rows[place]);
        all.push(HashedRow { hash, place })?;
    }
    Ok(all)
}

fn cmp_hashed(rows: &[Row], a: &HashedRow, b: &HashedRow) -> Ordering
    ensures { result ≡ ordering_then (nat_cmp a.now.hash b.now.hash)
        (row_cmp (get_or rows.now a.now.place []) (get_or rows.now b.now.place [])) }
{
    match a.hash.cmp(&b.hash) {
        Ordering::Equal => cmp_at(rows, a.place, b.place),
        unequal => unequal,
    }
}

// The order of the rows at two places, where none is as a row of no values.
fn cmp_at(rows: &[Row], a: usize, b: usize) -> Ordering
    ensures { result ≡ row_cmp (get_or rows.now a []) (get_or rows.now b []) }
{
    match (rows.get(a), rows.get(b)) {
        (Some(a), Some(b)) => cmp_rows(a, b),
        (Some(a), None) => cmp_to_none(a),
        (None, Some(b)) => cmp_to_none(b).reverse(),
        (None, None) => Ordering::Equal,
    }
}

fn cmp_to_none(row: &Row) -> Ordering
    ensures { result ≡ row_cmp row.now [] }
{
    match row.as_slice().first() {
        Some(_) => Ordering::Greater,
        None => Ordering::Equal,
    }
}
