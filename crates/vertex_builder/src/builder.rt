ghost use Rattle.std.specs.Prelude.{◌≡◌, ◌<◌, ◌&&◌, not, false, length, map, get_or, All, IfOk};
ghost use Rattle.std.specs.List.{list_all};
ghost use Rattle.vertex_builder.specs.Edges.{is_head};
ghost use Rattle.vertex_builder.specs.Vertices.{nodes_taken, makeable_heads, head_of, IsVertex};

use crate::chain::{build_edges, chain_of};
use crate::links::Links;
use crate::making::vertex_of;
use crate::marks::marks_of;
use crate::{Edge, NodeSet, Vertices, Widening, Widenings};
use plan_model::{GoodPlan, Settings};
use row_core::NoMemory;
use std::alloc::Global;

/// The vertices that can be made, in ascending order of their heads: of those heads that are not
/// made and whose inputs are complete, as are the build sides of the widened joins in their chains.
/// `made` and `complete` are nodes, in any order; of several widenings of a join the first counts,
/// and those of other nodes don't. docs/SEMANTICS.md has the rule.
pub fn makeable(
    alloc: Global,
    plan: &GoodPlan,
    made: &NodeSet,
    complete: &NodeSet,
    widened: &Widenings,
    settings: &Settings,
) -> Result<Vertices, NoMemory>
    ensures heads { IfOk result
        (λ vertices. map head_of vertices
        ≡ makeable_heads plan.now widened.now made.now complete.now) }
    ensures vertices { IfOk result
        (All (IsVertex plan.now widened.now settings.now.max_parallelism)) }
{
    let links = Links::of(alloc, plan)?;
    let widened = widened.as_slice();
    let heads = heads_of(alloc, &links, widened, made, complete)?;
    let max_parallelism = settings.max_parallelism();
    vertices_of(alloc, &links, widened, max_parallelism, heads.as_slice())
}

// The heads that can be made.
fn heads_of(
    alloc: Global,
    links: &Links,
    widened: &[Widening],
    made: &NodeSet,
    complete: &NodeSet,
) -> Result<Vec<u32>, NoMemory>
    ensures heads { IfOk result (λ heads. heads.items
        ≡ makeable_heads links.now widened.now made.now complete.now) }
    ensures inside { IfOk result (λ heads. All (λ head. head < length links.now) heads.items) }
{
    let count = links.count();
    let made = marks_of(alloc, made, count as usize)?;
    let complete = marks_of(alloc, complete, count as usize)?;
    let mut heads = Vec::new(alloc);
    for node in 0..count {
        if is_makeable(
            alloc,
            links,
            widened,
            made.as_slice(),
            complete.as_slice(),
            node,
        )? {
            heads.push(node)?;
        }
    }
    Ok(heads)
}

fn vertices_of(
    alloc: Global,
    links: &Links,
    widened: &[Widening],
    max_parallelism: u32,
    heads: &[u32],
) -> Result<Vertices, NoMemory>
    requires inside { All (λ head. head < length links.now) heads.now }
    ensures heads { IfOk result (λ vertices. map head_of vertices ≡ heads.now) }
    ensures vertices { IfOk result (All (IsVertex links.now widened.now max_parallelism)) }
{
    let mut made = Vec::with_capacity(alloc, heads.len())?;
    for head in heads {
        made.push(vertex_of(alloc, links, widened, max_parallelism, *head)?)?;
    }
    Ok(Vertices::from_vec(made))
}

// Whether a node is a head that is not made, all of whose vertex's inputs are complete.
fn is_makeable(
    alloc: Global,
    links: &Links,
    widened: &[Widening],
    made: &[bool],
    complete: &[bool],
    node: u32,
) -> Result<bool, NoMemory>
    requires { node < length links.now }
    ensures { IfOk result (λ makeable. makeable
        ≡ (is_head links.now widened.now node && not (get_or made.now node false)
        && list_all (λ input. get_or complete.now input false)
        (nodes_taken links.now widened.now node))) }
{
    if !links.is_head(widened, node) || is_marked(made, node) {
        return Ok(false);
    }
    if !all_marked(complete, links.node(node).inputs.as_slice()) {
        return Ok(false);
    }
    let chain = chain_of(alloc, links, widened, node)?;
    let builds = build_edges(alloc, links, widened, &chain.as_slice()[1..])?;
    Ok(all_from_marked(complete, builds.as_slice()))
}

fn all_from_marked(marks: &[bool], edges: &[Edge]) -> bool
    ensures { result ≡ list_all (λ edge. get_or marks.now edge.from false) edges.now }
{
    edges.iter().all(|edge| is_marked(marks, edge.from))
}

fn all_marked(marks: &[bool], nodes: &[u32]) -> bool
    ensures { result ≡ list_all (λ node. get_or marks.now node false) nodes.now }
{
    nodes.iter().all(|node| is_marked(marks, *node))
}

fn is_marked(marks: &[bool], node: u32) -> bool
    ensures { result ≡ get_or marks.now node false }
{
    match marks.get(node as usize) {
        Some(mark) => *mark,
        None => false,
    }
}
