ghost use Rattle.std.specs.Prelude.{◌≡◌, ◌<◌, ◌^◌, ◌∷◌, [], length, map, All, IfOk};
ghost use Rattle.plan_model.specs.Operators.{is_source};
ghost use Rattle.vertex_builder.specs.Edges.{edges_into};
ghost use Rattle.vertex_builder.specs.Vertices.{files_input, text_output, head_inputs, vertex_input, vertex_inputs, vertex_output, vertex_outputs, head_of, IsVertex, OneAnswer};

use crate::chain::{build_edges, chain_of};
use crate::links::Links;
use crate::shipping::cells_of;
use crate::{Edge, Vertex, VertexInput, VertexInputs, VertexOutput, VertexOutputs, Widening};
use plan_model::{Op, Ship};
use row_core::NoMemory;
use std::alloc::Global;

// The vertex of a head.
pub fn vertex_of(
    alloc: Global,
    links: &Links,
    widened: &[Widening],
    max_parallelism: u32,
    head: u32,
) -> Result<Vertex, NoMemory>
    requires { head < length links.now }
    ensures head { IfOk result (λ vertex. head_of vertex ≡ head) }
    ensures vertex { IfOk result (IsVertex links.now widened.now max_parallelism) }
{
    let nodes = chain_of(alloc, links, widened, head)?;
    let chain = nodes.as_slice();
    let last = chain[chain.len() - 1];
    let inputs = inputs_of(alloc, links, widened, chain)?;
    let outputs = outputs_of(alloc, links, max_parallelism, last)?;
    Ok(Vertex {
        nodes,
        inputs,
        outputs,
    })
}

// What comes in at a chain.
fn inputs_of(
    alloc: Global,
    links: &Links,
    widened: &[Widening],
    chain: &[u32],
) -> Result<VertexInputs, NoMemory>
    requires some { 0 < length chain.now }
    requires inside { All (λ node. node < length links.now) chain.now }
    ensures { IfOk result
        (λ inputs. inputs ≡ vertex_inputs links.now widened.now chain.now) }
{
    let mut inputs = head_inputs(alloc, links, chain[0])?.into_vec();
    let builds = build_edges(alloc, links, widened, &chain[1..])?;
    let mut built = build_inputs(alloc, links, builds.as_slice())?;
    inputs.append(&mut built)?;
    Ok(VertexInputs::from_vec(inputs))
}

// What comes in at a head.
fn head_inputs(alloc: Global, links: &Links, head: u32) -> Result<VertexInputs, NoMemory>
    requires { head < length links.now }
    ensures { IfOk result (λ inputs. inputs ≡ head_inputs links.now head) }
{
    let node = links.node(head);
    if is_source(&node.op) {
        return files_of(alloc, head);
    }
    edge_inputs(alloc, links, head, node.inputs.as_slice())
}

// What comes in along these edges.
fn build_inputs(alloc: Global, links: &Links, edges: &[Edge]) -> Result<Vec<VertexInput>, NoMemory>
    requires { All (λ edge. edge.into < length links.now) edges.now }
    ensures { IfOk result (λ made. made.items ≡ map (vertex_input links.now) edges.now) }
{
    let mut made = Vec::with_capacity(alloc, edges.len())?;
    for edge in edges {
        made.push(input_along(alloc, links, *edge)?)?;
    }
    Ok(made)
}

fn is_source(op: &Op) -> bool
    ensures { result ≡ is_source op.now }
{
    matches!(op, Op::Source { .. })
}

fn files_of(alloc: Global, source: u32) -> Result<VertexInputs, NoMemory>
    ensures { IfOk result (λ inputs. inputs ≡ files_input source ∷ []) }
{
    let files = VertexInput {
        from: None,
        into: source,
        place: 0,
        ship: Ship::Forward,
    };
    let mut made = Vec::new(alloc);
    made.push(files)?;
    Ok(VertexInputs::from_vec(made))
}

fn edge_inputs(
    alloc: Global,
    links: &Links,
    node: u32,
    inputs: &[u32],
) -> Result<VertexInputs, NoMemory>
    requires within { node < length links.now }
    requires few { length inputs.now < 2 ^ 32 }
    ensures { IfOk result
        (λ made. made ≡ map (vertex_input links.now) (edges_into node 0 inputs.now)) }
{
    let mut made = Vec::with_capacity(alloc, inputs.len())?;
    for (place, input) in inputs.iter().enumerate() {
        let edge = Edge {
            from: *input,
            into: node,
            place: place as u32,
        };
        made.push(input_along(alloc, links, edge)?)?;
    }
    Ok(VertexInputs::from_vec(made))
}

fn input_along(alloc: Global, links: &Links, edge: Edge) -> Result<VertexInput, NoMemory>
    requires { edge.into < length links.now }
    ensures { IfOk result (λ input. input ≡ vertex_input links.now edge) }
{
    Ok(VertexInput {
        from: Some(edge.from),
        into: edge.into,
        place: edge.place,
        ship: links.ship(alloc, edge)?,
    })
}

// What goes out behind the last node of a chain.
fn outputs_of(
    alloc: Global,
    links: &Links,
    max_parallelism: u32,
    last: u32,
) -> Result<VertexOutputs, NoMemory>
    requires { last < length links.now }
    ensures { IfOk result
        (λ outputs. outputs ≡ vertex_outputs links.now max_parallelism last) }
{
    if links.node(last).op.is_sink() {
        return text_of_sink(alloc);
    }
    edge_outputs(alloc, links, max_parallelism, links.consumer_edges(last))
}

fn text_of_sink(alloc: Global) -> Result<VertexOutputs, NoMemory>
    ensures { IfOk result (λ outputs. outputs ≡ text_output ∷ []) }
{
    let text = VertexOutput {
        into: None,
        place: 0,
        ship: Ship::Forward,
        cells: 1,
    };
    let mut made = Vec::new(alloc);
    made.push(text)?;
    Ok(VertexOutputs::from_vec(made))
}

fn edge_outputs(
    alloc: Global,
    links: &Links,
    max_parallelism: u32,
    edges: &[Edge],
) -> Result<VertexOutputs, NoMemory>
    requires { All (λ edge. edge.into < length links.now) edges.now }
    ensures { IfOk result
        (λ made. made ≡ map (vertex_output links.now max_parallelism) edges.now) }
{
    let mut made = Vec::with_capacity(alloc, edges.len())?;
    for edge in edges {
        made.push(output_along(alloc, links, max_parallelism, *edge)?)?;
    }
    Ok(VertexOutputs::from_vec(made))
}

fn output_along(
    alloc: Global,
    links: &Links,
    max_parallelism: u32,
    edge: Edge,
) -> Result<VertexOutput, NoMemory>
    requires { edge.into < length links.now }
    ensures { IfOk result
        (λ output. output ≡ vertex_output links.now max_parallelism edge) }
{
    let ship = links.ship(alloc, edge)?;
    let cells = cells_of(&ship, max_parallelism);
    Ok(VertexOutput {
        into: Some(edge.into),
        place: edge.place,
        ship,
        cells,
    })
}

/// The vertices of given heads are determined.
pub fn one_answer()
    ensures { OneAnswer }
{}
