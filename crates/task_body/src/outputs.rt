ghost use Rattle.std.specs.Prelude.{All, IfOk};
ghost use Rattle.std.specs.List.{AllByRecursion, AllZip};
ghost use Rattle.row_cells.specs.Cutting.{IsCutInto};
ghost use Rattle.row_view.specs.Encoded.{RowOf};
ghost use Rattle.task_body.specs.Outputs.{TakesRows};

use estate::{Edge, Edges};
use row_cells::OutputCells;
use row_core::NoMemory;
use row_steps::push_rows;
use row_view::EncodedRows;
use std::alloc::Global;
use vertex_builder::VertexOutput;

/// The rows, cut into the cells of each output.
pub fn cut_each(
    alloc: Global,
    outputs: &[VertexOutput],
    attempt: u32,
    width: u32,
    rows: &EncodedRows,
) -> Result<Edges, NoMemory>
    requires take { All (TakesRows width) outputs.now }
    requires rows { AllByRecursion (RowOf width) rows.now }
    ensures { IfOk result (λ edges. AllZip
        (λ output cells. IsCutInto width attempt output rows.now cells) outputs.now edges) }
{
    let mut edges = Edges::new(alloc);
    for output in outputs {
        let edge = cut(alloc, output, attempt, width, rows)?;
        edges.push(edge)?;
    }
    Ok(edges)
}

// The cells of an output, each with the bytes of its rows.
fn cut(
    alloc: Global,
    output: &VertexOutput,
    attempt: u32,
    width: u32,
    rows: &EncodedRows,
) -> Result<Edge, NoMemory>
    requires takes { TakesRows width output.now }
    requires rows { AllByRecursion (RowOf width) rows.now }
    ensures { IfOk result (λ edge. IsCutInto width attempt output.now rows.now edge) }
{
    let mut cells = OutputCells::new(alloc, output, width, attempt)?;
    push_rows(alloc, &[], rows, &mut cells)?;
    let cells = cells.into_vec();
    Ok(Edge::from_vec(cells))
}
