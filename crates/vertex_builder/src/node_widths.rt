ghost use Rattle.std.specs.Prelude.{◌≡◌, [], IfOk};
ghost use Rattle.plan_model.specs.Checks.{plan_faults};
ghost use Rattle.plan_model.specs.Widths.{widths_of};

use plan_model::{Node, widths_at};
use row_core::NoMemory;
use std::alloc::Global;

/// How many values the rows of each node have.
pub fn node_widths(alloc: Global, nodes: &[Node]) -> Result<Vec<u32>, NoMemory>
    requires { plan_faults nodes.now ≡ [] }
    ensures { IfOk result (λ widths. widths.items ≡ widths_of nodes.now) }
{
    let mut widths = Vec::with_capacity(alloc, nodes.len())?;
    for node in nodes {
        let inputs = widths_at(alloc, widths.as_slice(), &node.inputs)?;
        let width = node.op.width(inputs.as_slice());
        widths.push(width as u32)?;
    }
    Ok(widths)
}
