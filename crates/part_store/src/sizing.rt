ghost use Rattle.std.specs.Prelude.{◌≡◌, IfOk, length, map};
ghost use Rattle.part_store.specs.Cells.{sizes_of};

use crate::Part;
use estate::{Edge, EdgeSizes, Sizes};
use row_core::NoMemory;
use std::alloc::Global;

/// The sizes of the part's cells, in bytes.
pub fn sizes(alloc: Global, part: &Part) -> Result<EdgeSizes, NoMemory>
    ensures { IfOk result (λ sizes. sizes ≡ sizes_of part.now.edges) }
{
    let edges = part.edges.as_slice();
    let mut sizes = Vec::with_capacity(alloc, edges.len())?;
    for edge in edges {
        sizes.push(cell_sizes(alloc, edge)?)?;
    }
    Ok(EdgeSizes::from_vec(sizes))
}

fn cell_sizes(alloc: Global, edge: &Edge) -> Result<Sizes, NoMemory>
    ensures { IfOk result (λ sizes. sizes ≡ map length edge.now) }
{
    let cells = edge.as_slice();
    let mut sizes = Vec::with_capacity(alloc, cells.len())?;
    for cell in cells {
        sizes.push(cell.len() as u64)?;
    }
    Ok(Sizes::from_vec(sizes))
}
