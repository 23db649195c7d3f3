ghost use Rattle.std.specs.Prelude.{◌≡◌, IfOk};
ghost use Rattle.std.specs.List.{range_with_len};
ghost use Rattle.vertex_builder.specs.Edges.{ship_into, side_columns};
ghost use Rattle.vertex_builder.specs.Vertices.{cells_of};

use plan_model::{KeyPairs, Node, Op, Ship};
use row_core::{Columns, NoMemory};
use std::alloc::Global;

/// How rows of this width go into a node at one of its inputs.
pub fn ship_into(alloc: Global, node: &Node, place: u32, width: u32) -> Result<Ship, NoMemory>
    ensures { IfOk result (λ ship. ship ≡ ship_into node.now place width) }
{
    if node.rebalance {
        return Ok(Ship::Rebalance);
    }
    match &node.op {
        Op::Union => Ok(Ship::Rebalance),
        Op::Aggregate { keys, .. } => Ok(Ship::Hash(copied(alloc, keys)?)),
        Op::Distinct => Ok(Ship::Hash(columns_below(alloc, width)?)),
        Op::Join { keys, .. } => Ok(Ship::Hash(side_columns(alloc, keys, place)?)),
        _ => Ok(Ship::Forward),
    }
}

/// How many cells rows are cut into.
pub fn cells_of(ship: &Ship, max_parallelism: u32) -> u32
    ensures { result ≡ cells_of max_parallelism ship.now }
{
    match ship {
        Ship::Hash(_) | Ship::Rebalance => max_parallelism,
        Ship::Forward | Ship::Broadcast => 1,
    }
}

fn copied(alloc: Global, columns: &Columns) -> Result<Columns, NoMemory>
    ensures { IfOk result (λ copy. copy ≡ columns.now) }
{
    Ok(Columns::from_vec(columns.as_slice().to_vec(alloc)?))
}

#[tactic(auto, using(crate::proofs::EdgeLists::range_more))]
fn columns_below(alloc: Global, width: u32) -> Result<Columns, NoMemory>
    ensures { IfOk result (λ columns. columns ≡ range_with_len 0 width) }
{
    let mut columns = Vec::with_capacity(alloc, width as usize)?;
    for column in 0..width {
        columns.push(column)?;
    }
    Ok(Columns::from_vec(columns))
}

// The columns of one side of a join's keys.
fn side_columns(alloc: Global, keys: &KeyPairs, place: u32) -> Result<Columns, NoMemory>
    ensures { IfOk result (λ columns. columns ≡ side_columns place keys.now) }
{
    let pairs = keys.as_slice();
    let mut columns = Vec::with_capacity(alloc, pairs.len())?;
    for pair in pairs {
        columns.push(if place == 0 { pair.0 } else { pair.1 })?;
    }
    Ok(Columns::from_vec(columns))
}
