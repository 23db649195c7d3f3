ghost use Rattle.std.specs.Prelude.{◌≡◌, ◌↔◌, ◌==◌, IsTrue, count_by, get_or, length, None};
ghost use Rattle.std.specs.List.{list_any};
ghost use Rattle.graph_vertices.specs.Widening.{CanWiden};
ghost use Rattle.vertex_builder.specs.Edges.{build_place, consumer_edges, probe_place, widening_of};
ghost use Rattle.vertex_laws.specs.VertexRows.{may_repeat};

use crate::MadeVertices;
use plan_model::{GoodPlan, JoinKind, Node, Op, Side};
use vertex_builder::Widening;

/// Whether the node is a join that can be widened so that this side of it is built.
pub fn can_widen(
    plan: &GoodPlan,
    widened: &[Widening],
    vertices: &MadeVertices,
    node: u32,
    side: Side,
) -> bool
    ensures { IsTrue result ↔ CanWiden plan.now widened.now vertices.now node side }
{
    let nodes = plan.nodes();
    let Some(join) = nodes.get(node as usize) else {
        return false;
    };
    let build = input_at(join, build_place(side));
    let probe = input_at(join, probe_place(side));
    may_repeat(&join.op, side)
        && vertices.lacks(node)
        && is_fresh(widened, node)
        && vertices.is_complete_at(vertices.maker(build))
        && vertices.lacks(probe)
        && has_one_consumer(nodes, probe)
}

// The node whose rows a node takes at an input, 0 where it has no such input.
fn input_at(node: &Node, place: usize) -> u32
    ensures { result ≡ get_or node.now.inputs place 0 }
{
    match node.inputs.as_slice().get(place) {
        Some(input) => *input,
        None => 0,
    }
}

fn build_place(side: Side) -> usize
    ensures { result ≡ build_place side }
{
    match side {
        Side::Left => 0,
        Side::Right => 1,
    }
}

fn probe_place(side: Side) -> usize
    ensures { result ≡ probe_place side }
{
    match side {
        Side::Left => 1,
        Side::Right => 0,
    }
}

// Whether it is a join that may read this side whole.
fn may_repeat(op: &Op, side: Side) -> bool
    ensures { result ≡ may_repeat op.now side }
{
    match op {
        Op::Join { kind, .. } => match side {
            Side::Left => matches!(kind, JoinKind::Inner | JoinKind::Right),
            Side::Right => kind.repeats_right(),
        },
        _ => false,
    }
}

// Whether no widening is the node's.
fn is_fresh(widened: &[Widening], node: u32) -> bool
    ensures { IsTrue result ↔ (widening_of widened.now node ≡ None) }
{
    !has_widening(widened, node)
}

fn has_widening(widened: &[Widening], node: u32) -> bool
    ensures { result ≡ list_any (λ widening. widening.node == node) widened.now }
{
    widened.iter().any(|widening| widening.node == node)
}

// Whether the node has one consumer edge.
fn has_one_consumer(nodes: &[Node], node: u32) -> bool
    ensures { IsTrue result ↔ (length (consumer_edges nodes.now node) ≡ 1) }
{
    let mut seen = 0;
    for place in 0..nodes.len() {
        let times = times_read(nodes[place].inputs.as_slice(), node);
        seen = (seen + times.min(2)).min(2);
    }
    seen == 1
}

fn times_read(inputs: &[u32], node: u32) -> usize
    ensures { result ≡ count_by (λ input. input == node) inputs.now }
{
    inputs.iter().filter(|input| **input == node).count()
}
