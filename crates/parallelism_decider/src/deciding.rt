ghost use Rattle.std.specs.Prelude.{◌≡◌, ◌↔◌, IfOk, IsTrue, All, length};
ghost use Rattle.grid_groups.specs.Reads.{columns_in};
ghost use Rattle.rect_cover.specs.Covers.{IsCover};
ghost use Rattle.rect_cover.specs.declared.shape_kind.ShapeKind.TheVariants.{RowWise, Keyed};
ghost use Rattle.vertex_builder.specs.Vertices.{head_of};
ghost use Rattle.parallelism_decider.specs.Decisions.{head_inputs, goes_forward, is_forward, HasShape, IsShared, IsDecided, TakesKeys, shape_of};

use grid_groups::{columns_in, share_columns, share_producers};
use plan_model::{Settings, Ship};
use rect_cover::{Assignment, Grid, Grids};
use std::alloc::Global;
use vertex_builder::Vertex;
use volume_split::NoMemory;

/// The subtasks of a vertex whose head is no join, over the grids of its inputs, the head's first.
/// A source's files, or the producers of an input that is shipped forward, are shared; else the
/// columns of all inputs of the head are. Each subtask reads the wide inputs whole. Without files
/// there is one subtask. docs/SEMANTICS.md has the rule.
pub fn decide(
    alloc: Global,
    vertex: &Vertex,
    sizes: &Grids,
    settings: &Settings,
) -> Result<Assignment, NoMemory>
    requires { HasShape vertex.now sizes.now }
    ensures decided { IfOk result (IsDecided vertex.now sizes.now settings.now) }
    ensures row_wise { IfOk result (IsCover (shape_of RowWise vertex.now sizes.now)) }
    ensures keyed { TakesKeys vertex.now sizes.now
        → IfOk result (IsCover (shape_of Keyed vertex.now sizes.now)) }
{
    let (heads, wide) = sizes.as_slice().split_at(head_inputs(vertex));
    share(alloc, settings, goes_forward(vertex), heads, wide)
}

/// Whether there is a grid for each input, those of the head with equally many columns.
pub fn has_shape(vertex: &Vertex, sizes: &Grids) -> bool
    ensures { IsTrue result ↔ HasShape vertex.now sizes.now }
{
    let grids = sizes.as_slice();
    if grids.len() != vertex.inputs.as_slice().len() {
        return false;
    }
    let (heads, _) = grids.split_at(head_inputs(vertex));
    have_columns(heads, columns_in(heads))
}

fn have_columns(grids: &[Grid], columns: u32) -> bool
    ensures { IsTrue result ↔ All (λ grid. grid.cells ≡ columns) grids.now }
{
    grids.iter().all(|grid| grid.cells == columns)
}

fn share(
    alloc: Global,
    settings: &Settings,
    forward: bool,
    heads: &[Grid],
    wide: &[Grid],
) -> Result<Assignment, NoMemory>
    ensures { IfOk result (IsShared forward heads.now wide.now settings.now) }
{
    if forward {
        if let [grid] = heads {
            return share_producers(alloc, settings, &[], grid, wide);
        }
    }
    share_columns(alloc, settings, heads, wide)
}

fn head_inputs(vertex: &Vertex) -> usize
    ensures { result ≡ head_inputs vertex.now }
{
    let head = head_of(vertex);
    let inputs = vertex.inputs.as_slice();
    inputs.iter().filter(|input| input.into == head).count()
}

fn head_of(vertex: &Vertex) -> u32
    ensures { result ≡ head_of vertex.now }
{
    vertex.nodes.as_slice().first().copied().unwrap_or(0)
}

fn goes_forward(vertex: &Vertex) -> bool
    ensures { result ≡ goes_forward vertex.now }
{
    match vertex.inputs.as_slice() {
        [input, ..] => is_forward(&input.ship),
        [] => false,
    }
}

fn is_forward(ship: &Ship) -> bool
    ensures { result ≡ is_forward ship.now }
{
    matches!(ship, Ship::Forward)
}
