ghost use Rattle.std.specs.Prelude.{◌≡◌, ◌<◌, ℕ, [], List, length, All, Some, IfOk};
ghost use Rattle.std.specs.List.{filter_map};
ghost use Rattle.plan_model.specs.Checks.{plan_faults};
ghost use Rattle.plan_model.specs.declared.node.Node.{Node};
ghost use Rattle.vertex_builder.specs.declared.widening.Widening.{Widening};
ghost use Rattle.vertex_builder.specs.Edges.{chained_after};
ghost use Rattle.vertex_builder.specs.Vertices.{build_edge};
ghost use Rattle.vertex_builder.specs.Chains.{IsChain, OneChain, ChainsPart, TakesAfter};

use crate::links::Links;
use crate::{Edge, NodeList, Widening};
use row_core::NoMemory;
use std::alloc::Global;

/// A head and the nodes that are chained after it.
pub fn chain_of(
    alloc: Global,
    links: &Links,
    widened: &[Widening],
    head: u32,
) -> Result<NodeList, NoMemory>
    requires { head < length links.now }
    ensures chain { IfOk result (IsChain links.now widened.now head) }
    ensures inside { IfOk result (All (λ node. node < length links.now)) }
{
    let mut chain = vec![in alloc; head]?;
    let mut last = head;
    while let Some(next) = links.chained_after(widened, last) {
        chain.push(next)?;
        last = next;
    }
    Ok(NodeList::from_vec(chain))
}

/// The edges from the build sides of the widened joins among these nodes.
pub fn build_edges(
    alloc: Global,
    links: &Links,
    widened: &[Widening],
    nodes: &[u32],
) -> Result<Vec<Edge>, NoMemory>
    requires { All (λ node. node < length links.now) nodes.now }
    ensures edges { IfOk result
        (λ edges. edges.items ≡ filter_map (build_edge links.now widened.now) nodes.now) }
    ensures inside { IfOk result
        (λ edges. All (λ edge. edge.into < length links.now) edges.items) }
{
    let mut edges = Vec::new(alloc);
    for node in nodes {
        if let Some(edge) = links.build_edge(widened, *node) {
            edges.push(edge)?;
        }
    }
    Ok(edges)
}

/// The chains of the heads part the nodes of a plan without a fault, whichever joins are widened:
/// each node stands in the chain of one head, and once.
pub fn chains_part_the_plan()
    ensures { (nodes : List Node) (widened : List Widening) → plan_faults nodes ≡ []
        → ChainsPart nodes widened }
{}

/// A node that is chained after another works on one row at a time and takes that one's rows alone,
/// or is a widened join that takes them as its probe side.
pub fn chained_nodes_take_one()
    ensures { (nodes : List Node) (widened : List Widening) (before node : ℕ)
        → plan_faults nodes ≡ [] → chained_after nodes widened before ≡ Some node
        → TakesAfter nodes widened before node }
{}

/// A head has one chain.
pub fn one_chain()
    ensures { OneChain }
{}
