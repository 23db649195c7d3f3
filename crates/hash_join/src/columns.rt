ghost use Rattle.std.specs.Prelude.{◌≡◌, map, IfOk};
ghost use Rattle.hash_join.specs.Keys.{column_on, columns_on};

use plan_model::{KeyPairs, Side};
use row_core::{Columns, NoMemory};
use std::alloc::Global;

/// The key columns of a side.
pub fn key_columns(alloc: Global, keys: &KeyPairs, side: Side) -> Result<Columns, NoMemory>
    ensures { IfOk result (λ columns. columns ≡ columns_on side keys.now) }
{
    let pairs = keys.as_slice();
    let columns: Vec<u32> = pairs
        .iter()
        .map(|pair| column_on(side, *pair))
        .collect(alloc)?;
    Ok(Columns::from_vec(columns))
}

fn column_on(side: Side, pair: (u32, u32)) -> u32
    ensures { result ≡ column_on side pair }
{
    match side {
        Side::Left => pair.0,
        Side::Right => pair.1,
    }
}
