ghost use Rattle.std.specs.Prelude.{◌≡◌, ◌<◌, ◌^◌, All, IfOk, length, map};
ghost use Rattle.graph_model.specs.Reads.{input_grid, node_files, shape_at};
ghost use Rattle.vertex_builder.specs.Vertices.{cells_of, head_input_count};
ghost use Rattle.std.specs.List.{position_or_len};
ghost use Rattle.std.specs.Str.{bytes_eq};
ghost use Rattle.vertex_laws.specs.VertexRows.{head_count, op_at, op_shape};

use crate::MadeVertices;
use graph_model::FileSizes;
use plan_model::{GoodPlan, JoinKind, Node, Op, Settings, Ship, tables_of};
use rect_cover::{CellSizes, Grid, Grids, Shape, ShapeKind};
use row_core::{Bytes, NoMemory};
use std::alloc::Global;
use vertex_builder::{Vertex, VertexInput};

/// The shape of what a vertex reads.
pub fn shape_of(
    alloc: Global,
    plan: &GoodPlan,
    settings: &Settings,
    files: &FileSizes,
    vertices: &MadeVertices,
    vertex: &Vertex,
) -> Result<Shape, NoMemory>
    requires few { All (λ sizes. length sizes < 2 ^ 32) files.now }
    requires heads { head_input_count vertex.now ≡ head_count plan.now vertex.now }
    ensures { IfOk result (λ shape. shape ≡ shape_at
        (record { nodes = plan.now; settings = settings.now; files = files.now })
        vertices.now vertex.now) }
{
    let inputs = vertex.inputs.as_slice();
    let (heads, wide) = inputs.split_at(vertex.head_input_count());
    let kind = kind_at(plan.nodes(), vertex.head());
    let heads = grids_of(alloc, plan, settings, files, vertices, heads)?;
    let wide = grids_of(alloc, plan, settings, files, vertices, wide)?;
    Ok(Shape { kind, heads, wide })
}

fn grids_of(
    alloc: Global,
    plan: &GoodPlan,
    settings: &Settings,
    files: &FileSizes,
    vertices: &MadeVertices,
    inputs: &[VertexInput],
) -> Result<Grids, NoMemory>
    requires few { All (λ sizes. length sizes < 2 ^ 32) files.now }
    ensures { IfOk result (λ grids. grids ≡ map (input_grid
        (record { nodes = plan.now; settings = settings.now; files = files.now })
        vertices.now) inputs.now) }
{
    let mut grids = Vec::with_capacity(alloc, inputs.len())?;
    for input in inputs {
        grids.push(grid_of(alloc, plan, settings, files, vertices, input)?)?;
    }
    Ok(Grids::from_vec(grids))
}

fn grid_of(
    alloc: Global,
    plan: &GoodPlan,
    settings: &Settings,
    files: &FileSizes,
    vertices: &MadeVertices,
    input: &VertexInput,
) -> Result<Grid, NoMemory>
    requires few { All (λ sizes. length sizes < 2 ^ 32) files.now }
    ensures { IfOk result (λ grid. grid ≡ input_grid
        (record { nodes = plan.now; settings = settings.now; files = files.now })
        vertices.now input.now) }
{
    let sizes = CellSizes::from_vec(Vec::new(alloc));
    match input.from {
        Some(node) => Ok(Grid {
            producers: vertices.parallelism(vertices.maker(node)),
            cells: cells_of(settings.max_parallelism(), &input.ship),
            sizes,
        }),
        None => Ok(Grid {
            producers: count_files(alloc, plan, settings, files, input.into)?,
            cells: 1,
            sizes,
        }),
    }
}

// How many cells a subtask cuts its rows into on an edge of this ship.
fn cells_of(max_parallelism: u32, ship: &Ship) -> u32
    ensures { result ≡ cells_of max_parallelism ship.now }
{
    match ship {
        Ship::Hash(_) | Ship::Rebalance => max_parallelism,
        _ => 1,
    }
}

// How many files the table of a source has, and none where the node is none.
fn count_files(
    alloc: Global,
    plan: &GoodPlan,
    settings: &Settings,
    files: &FileSizes,
    node: u32,
) -> Result<u32, NoMemory>
    requires few { All (λ sizes. length sizes < 2 ^ 32) files.now }
    ensures { IfOk result (λ count. count ≡ node_files
        (record { nodes = plan.now; settings = settings.now; files = files.now }) node) }
{
    let Some(source) = plan.nodes().get(node as usize) else {
        return Ok(0);
    };
    let Op::Source { table, .. } = &source.op else {
        return Ok(0);
    };
    let tables = tables_of(alloc, plan.plan())?;
    match files.as_slice().get(place_of(tables.as_slice(), table)) {
        Some(sizes) => Ok(sizes.as_slice().len() as u32),
        None => Ok(0),
    }
}

// The place of a name, or their number.
fn place_of(names: &[Bytes], name: &Bytes) -> usize
    ensures { result ≡ position_or_len (bytes_eq name.now) names.now }
{
    for place in 0..names.len() {
        if name.equals(&names[place]) {
            return place;
        }
    }
    names.len()
}

// What a head demands of the cells that are read.
fn kind_at(nodes: &[Node], node: u32) -> ShapeKind
    ensures { result ≡ op_shape (op_at nodes.now node) }
{
    match nodes.get(node as usize) {
        Some(node) => kind_of(&node.op),
        None => ShapeKind::RowWise,
    }
}

fn kind_of(op: &Op) -> ShapeKind
    ensures { result ≡ op_shape op.now }
{
    match op {
        Op::Aggregate { .. } | Op::Distinct => ShapeKind::Keyed,
        Op::Join { kind, .. } => match kind {
            JoinKind::Inner => ShapeKind::Inner,
            JoinKind::Right => ShapeKind::RightDriven,
            JoinKind::Full => ShapeKind::Full,
            _ => ShapeKind::LeftDriven,
        },
        _ => ShapeKind::RowWise,
    }
}
