ghost use Rattle.std.specs.Prelude.{◌≡◌, ◌≢◌, ◌<◌, All, IfNone, IfOk, IfSome, get_or, length};
ghost use Rattle.graph_vertices.specs.Making.{HasMakeableHead, IsNext};
ghost use Rattle.graph_model.specs.States.{complete_nodes, made_nodes, no_vertex};
ghost use Rattle.vertex_builder.specs.Chains.{IsChain};

use crate::MadeVertices;
use plan_model::{GoodPlan, Settings};
use row_core::NoMemory;
use std::alloc::Global;
use vertex_builder::{NodeList, NodeSet, Vertex, Widenings, makeable};

/// The vertex of this chain, if it can be made.
pub fn next_vertex(
    alloc: Global,
    plan: &GoodPlan,
    widened: &Widenings,
    settings: &Settings,
    vertices: &MadeVertices,
    chain: &NodeList,
) -> Result<Option<Vertex>, NoMemory>
    ensures some { IfOk result (λ made. IfSome made
        (IsNext plan.now widened.now settings.now.max_parallelism vertices.now chain.now)) }
    ensures none { IfOk result (λ made. IfNone made
        (HasMakeableHead plan.now widened.now vertices.now chain.now
        → IsChain plan.now widened.now (get_or chain.now 0 0) chain.now → ⊥)) }
{
    let made = made_nodes(alloc, vertices)?;
    let complete = complete_nodes(alloc, vertices)?;
    let mut able = makeable(alloc, plan, &made, &complete, widened, settings)?.into_vec();
    match place_of(able.as_slice(), chain.as_slice()) {
        Some(place) => Ok(Some(able.swap_remove(place))),
        None => Ok(None),
    }
}

// The nodes that are made.
fn made_nodes(alloc: Global, vertices: &MadeVertices) -> Result<NodeSet, NoMemory>
    ensures { IfOk result (λ set. set ≡ made_nodes vertices.now) }
{
    let mut nodes = Vec::new(alloc);
    for made in vertices.as_slice() {
        nodes.extend_from_slice(made.vertex.nodes.as_slice())?;
    }
    Ok(NodeSet::from_vec(nodes))
}

// The nodes of complete vertices.
fn complete_nodes(alloc: Global, vertices: &MadeVertices) -> Result<NodeSet, NoMemory>
    ensures { IfOk result (λ set. set ≡ complete_nodes vertices.now) }
{
    let mut nodes = Vec::new(alloc);
    let made = vertices.as_slice();
    for vertex in 0..made.len() {
        if vertices.is_complete_at(vertex) {
            nodes.extend_from_slice(made[vertex].vertex.nodes.as_slice())?;
        }
    }
    Ok(NodeSet::from_vec(nodes))
}

// The place of the vertex of this chain.
fn place_of(vertices: &[Vertex], chain: &[u32]) -> Option<usize>
    ensures within { IfSome result (λ place. place < length vertices.now) }
    ensures chain { IfSome result (λ place.
        (get_or vertices.now place no_vertex.vertex).nodes ≡ chain.now) }
    ensures none { IfNone result (All (λ vertex. vertex.nodes ≢ chain.now) vertices.now) }
{
    for place in 0..vertices.len() {
        if vertices[place].nodes.as_slice() == chain {
            return Some(place);
        }
    }
    None
}
