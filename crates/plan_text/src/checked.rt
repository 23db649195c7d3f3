ghost use Rattle.std.specs.Prelude.{◌≡◌, IfOk};
ghost use Rattle.plan_text.specs.Checked.{check_text, sink_count};

use plan_model::{GoodPlan, Node};
use row_core::{Bytes, NoMemory};
use std::alloc::Global;

/// What `check` prints of a plan: `ok nodes=6 sinks=1` and a line feed. The first number counts
/// all nodes, the second those that are sinks.
pub fn check_text(alloc: Global, plan: &GoodPlan) -> Result<Bytes, NoMemory>
    ensures { IfOk result (λ text. text ≡ check_text plan.now) }
{
    let nodes = plan.nodes();
    let count = nodes.len().to_string(alloc)?;
    let sinks = sink_count(nodes).to_string(alloc)?;
    let mut text = Bytes::from_slice(alloc, b"ok nodes=")?;
    text.extend(count.as_bytes())?;
    text.extend(b" sinks=")?;
    text.extend(sinks.as_bytes())?;
    text.push(b'\n')?;
    Ok(text)
}

fn sink_count(nodes: &[Node]) -> usize
    ensures { result ≡ sink_count nodes.now }
{
    let mut count = 0;
    for node in nodes {
        if node.op.is_sink() {
            count += 1;
        }
    }
    count
}
