ghost use Rattle.std.specs.Prelude.{◌≡◌, ◌<◌, ◌≤◌, ◌==◌, ◌||◌, false, [], length, get_or, slice_get, All, Some, None, IfOk, IfSome, if◌then◌else◌};
ghost use Rattle.std.specs.Option.{option_map_or};
ghost use Rattle.plan_model.specs.Checks.{plan_faults};
ghost use Rattle.vertex_builder.specs.Edges.{consumer_edges, edge_ship, is_head, chained_after};
ghost use Rattle.vertex_builder.specs.Edges.{is_chained, is_join, probe_place, takes_rows, widening_of};
ghost use Rattle.vertex_builder.specs.Links.{IsBelow};
ghost use Rattle.vertex_builder.specs.Vertices.{build_edge};

use crate::build_side::{build_place, build_side, probe_place};
use crate::consumers::consumers;
use crate::node_widths::node_widths;
use crate::shipping::ship_into;
use crate::{Edge, EdgeList, Widening};
use plan_model::{GoodPlan, Node, Ship, width_at};
use row_core::NoMemory;
use std::alloc::Global;
use std::marker::Model;

/// The nodes of a plan, with the width and the consumer edges of each at hand. Contracts see the
/// nodes.
#[derive(Drop)]
pub struct Links<'a> {
    nodes: &'a [Node],
    widths: Vec<u32>,
    consumers: Vec<EdgeList>,
}

impl<'a> Model for Links<'a> {
    ghost use Rattle.std.specs.Prelude.{List};
    ghost use Rattle.plan_model.specs.declared.node.Node.{Node};
    ghost use Rattle.row_core.specs.contracts.expr.Expr as expr;
    ghost use Rattle.row_core.specs.contracts.pred.Pred as pred;
    ghost use Rattle.std.specs.Coded.{codes};
    ghost use Rattle.vertex_builder.specs.Links.{AreLinked};

    ghost Value = { List Node };

    ghost view = { λ links. links.nodes.now };

    ghost invariant = { λ links.
        AreLinked links.nodes.now links.widths.items links.consumers.items };

    ghost coded = { Prim.hlevel (codes, expr.the_row.coded, pred.the_row.coded) };
}

impl<'a> Links<'a> {
    /// Links the nodes of a plan, in time linear in its edges.
    pub fn of(alloc: Global, plan: &'a GoodPlan) -> Result<Links<'a>, NoMemory>
        ensures { IfOk result (λ links. links ≡ plan.now) }
    {
        let nodes = plan.nodes();
        let widths = node_widths(alloc, nodes)?;
        let consumers = consumers(alloc, nodes)?;
        Ok(Links {
            nodes,
            widths,
            consumers,
        })
    }

    /// How many nodes the plan has.
    pub fn count(&self) -> u32
        ensures nodes { result ≡ length self.now }
        ensures faultless { plan_faults self.now ≡ [] }
    {
        self.nodes.len() as u32
    }

    pub fn node(&self, place: u32) -> &Node
        requires { place < length self.now }
        ensures at { slice_get self.now place ≡ Some result.now }
        ensures faultless { plan_faults self.now ≡ [] }
        ensures before { All (λ input. input < place) result.now.inputs }
        ensures few { length result.now.inputs ≤ 64 }
    {
        &self.nodes[place as usize]
    }

    /// The edges from a node to its consumers.
    pub fn consumer_edges(&self, node: u32) -> &[Edge]
        requires { node < length self.now }
        ensures edges { result.now ≡ consumer_edges self.now node }
        ensures later { All (λ edge. IsBelow node edge.into (length self.now)) result.now }
    {
        self.consumers[node as usize].as_slice()
    }

    /// Whether the edge chains its consumer behind the node that it comes from.
    pub fn is_chained(&self, widened: &[Widening], edge: Edge) -> bool
        requires from { edge.from < length self.now }
        requires into { edge.into < length self.now }
        ensures { result ≡ is_chained self.now widened.now edge }
    {
        self.consumer_edges(edge.from).len() == 1
            && takes_chained(self.node(edge.into), widened, edge)
    }

    /// Whether none of the edges into the node is chained.
    pub fn is_head(&self, widened: &[Widening], node: u32) -> bool
        requires { node < length self.now }
        ensures { result ≡ is_head self.now widened.now node }
    {
        let inputs = self.node(node).inputs.as_slice();
        for (place, input) in inputs.iter().enumerate() {
            let edge = Edge {
                from: *input,
                into: node,
                place: place as u32,
            };
            if self.is_chained(widened, edge) {
                return false;
            }
        }
        true
    }

    /// The node that is chained after this one.
    pub fn chained_after(&self, widened: &[Widening], node: u32) -> Option<u32>
        requires { node < length self.now }
        ensures next { result ≡ chained_after self.now widened.now node }
        ensures later { IfSome result (λ next. IsBelow node next (length self.now)) }
    {
        let edges = self.consumer_edges(node);
        if edges.len() != 1 {
            return None;
        }
        let edge = edges[0];
        if takes_chained(self.node(edge.into), widened, edge) {
            Some(edge.into)
        } else {
            None
        }
    }

    /// The edge from the build side of a widened join into it.
    pub fn build_edge(&self, widened: &[Widening], node: u32) -> Option<Edge>
        requires { node < length self.now }
        ensures edge { result ≡ build_edge self.now widened.now node }
        ensures into { IfSome result (λ edge. edge.into < length self.now) }
    {
        let here = self.node(node);
        let side = build_side(&here.op, widened, node)?;
        let place = build_place(side);
        Some(Edge {
            from: input_at(here.inputs.as_slice(), place),
            into: node,
            place,
        })
    }

    /// How rows go along an edge.
    pub fn ship(&self, alloc: Global, edge: Edge) -> Result<Ship, NoMemory>
        requires { edge.into < length self.now }
        ensures { IfOk result (λ ship. ship ≡ edge_ship self.now edge) }
    {
        let width = width_at(self.widths.as_slice(), edge.from);
        ship_into(alloc, self.node(edge.into), edge.place, width)
    }
}

// Whether a node is chained along an edge that is the only one from its node: it works on one row
// at a time, or is a widened join of whose probe side the edge is.
fn takes_chained(here: &Node, widened: &[Widening], edge: Edge) -> bool
    ensures { result ≡ (takes_rows here.now || option_map_or
        (λ side. edge.place == probe_place side)
        (if is_join here.now.op then widening_of widened.now edge.into else None) false) }
{
    takes_rows(here) || is_probe(here, widened, edge)
}

// Whether an edge is the probe side of a widened join.
fn is_probe(here: &Node, widened: &[Widening], edge: Edge) -> bool
    ensures { result ≡ option_map_or (λ side. edge.place == probe_place side)
        (if is_join here.now.op then widening_of widened.now edge.into else None) false }
{
    match build_side(&here.op, widened, edge.into) {
        Some(side) => edge.place == probe_place(side),
        None => false,
    }
}

// Whether a node takes the rows of its only input one at a time, as they come.
fn takes_rows(node: &Node) -> bool
    ensures { result ≡ takes_rows node.now }
{
    node.op.may_rebalance() && !node.rebalance
}

fn input_at(inputs: &[u32], place: u32) -> u32
    ensures { result ≡ get_or inputs.now place 0 }
{
    match inputs.get(place as usize) {
        Some(input) => *input,
        None => 0,
    }
}
