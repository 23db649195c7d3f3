ghost use Rattle.std.specs.Prelude.{◌≡◌, [], map, IfOk};
ghost use Rattle.plan_model.specs.Checks.{plan_faults};
ghost use Rattle.plan_model.specs.Widths.{widths_of};
ghost use Rattle.task_body.specs.Inputs.{width_into};

use plan_model::{GoodPlan, Node, width_at, widths_at};
use row_core::NoMemory;
use std::alloc::Global;
use vertex_builder::Vertex;

/// How many values the rows have that come in at each input of a vertex.
pub fn input_widths(alloc: Global, plan: &GoodPlan, vertex: &Vertex) -> Result<Vec<u32>, NoMemory>
    ensures { IfOk result
        (λ widths. widths.items ≡ map (width_into plan.now) vertex.now.inputs) }
{
    let widths = node_widths(alloc, plan.nodes())?;
    let inputs = vertex.inputs.as_slice();
    let mut found = Vec::with_capacity(alloc, inputs.len())?;
    for input in inputs {
        let node = input.from.unwrap_or(input.into);
        found.push(width_at(widths.as_slice(), node))?;
    }
    Ok(found)
}

// How many values the rows of each node have.
fn node_widths(alloc: Global, nodes: &[Node]) -> Result<Vec<u32>, NoMemory>
    requires { plan_faults nodes.now ≡ [] }
    ensures { IfOk result (λ widths. widths.items ≡ widths_of nodes.now) }
{
    let mut widths = Vec::with_capacity(alloc, nodes.len())?;
    for node in nodes {
        let inputs = widths_at(alloc, widths.as_slice(), &node.inputs)?;
        let width = node.op.width(inputs.as_slice());
        widths.push(width as u32)?;
    }
    Ok(widths)
}
