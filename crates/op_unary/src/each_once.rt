ghost use Rattle.std.specs.Prelude.{◌≡◌, ◌<◌, [], All, get_or, length, map, IfOk};
ghost use Rattle.row_core.specs.Bags.{SameBag, one_of_each};
ghost use Rattle.op_unary.specs.Distinct.{row_at};

use crate::first_places::first_places;
use crate::hashed_row::HashedRow;
use row_core::{NoMemory, Row, Rows};
use std::alloc::Global;

/// One of each row.
pub fn distinct(alloc: Global, rows: &[Row]) -> Result<Rows, NoMemory>
    ensures { IfOk result (λ kept. SameBag kept (one_of_each rows.now)) }
{
    let firsts = first_places(alloc, rows)?;
    copies_at(alloc, rows, firsts.as_slice())
}

fn copies_at(alloc: Global, rows: &[Row], firsts: &[HashedRow]) -> Result<Rows, NoMemory>
    requires { All (λ first. first.place < length rows.now) firsts.now }
    ensures { IfOk result (λ copies. copies ≡ map (row_at rows.now) firsts.now) }
{
    let mut copies = Rows::new(alloc);
    for first in firsts {
        copies.push(rows[first.place].copy(alloc)?)?;
    }
    Ok(copies)
}
