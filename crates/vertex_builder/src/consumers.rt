ghost use Rattle.std.specs.Prelude.{◌≡◌, ◌<◌, ◌^◌, ◌∷◌, [], length, replicate, IfOk, OnOk};
ghost use Rattle.plan_model.specs.Checks.{plan_faults};
ghost use Rattle.vertex_builder.specs.declared.edge.Edge as edge;
ghost use Rattle.vertex_builder.specs.Edges.{edges_into};
ghost use Rattle.vertex_builder.specs.Links.{HaveMore, ListConsumers};

use crate::{Edge, EdgeList};
use plan_model::Node;
use row_core::NoMemory;
use std::alloc::Global;

/// The edges from each node to its consumers, in order of consumer and input.
pub fn consumers(alloc: Global, nodes: &[Node]) -> Result<Vec<EdgeList>, NoMemory>
    requires faultless { plan_faults nodes.now ≡ [] }
    requires few { length nodes.now < 2 ^ 32 }
    ensures { IfOk result (λ lists. ListConsumers nodes.now lists.items) }
{
    let mut lists = no_edges(alloc, nodes.len())?;
    for (place, node) in nodes.iter().enumerate() {
        add_inputs(&mut lists, place as u32, node.inputs.as_slice())?;
    }
    Ok(lists)
}

fn no_edges(alloc: Global, count: usize) -> Result<Vec<EdgeList>, NoMemory>
    ensures { IfOk result (λ lists. lists.items ≡ replicate count []) }
{
    let mut lists = Vec::with_capacity(alloc, count)?;
    for _ in 0..count {
        lists.push(EdgeList::from_vec(Vec::new(alloc)))?;
    }
    Ok(lists)
}

fn add_inputs(lists: &mut Vec<EdgeList>, node: u32, inputs: &[u32]) -> Result<(), NoMemory>
    requires { length inputs.now < 2 ^ 32 }
    ensures { OnOk result
        (HaveMore lists.old.items lists.new.items (edges_into node 0 inputs.now)) }
{
    for (place, input) in inputs.iter().enumerate() {
        let edge = Edge {
            from: *input,
            into: node,
            place: place as u32,
        };
        add_edge(lists, edge)?;
    }
    Ok(())
}

fn add_edge(lists: &mut Vec<EdgeList>, edge: Edge) -> Result<(), NoMemory>
    ensures { OnOk result (HaveMore lists.old.items lists.new.items (edge ∷ [])) }
{
    let from = edge.from as usize;
    if from < lists.len() {
        lists[from].push(edge)?;
    }
    Ok(())
}
