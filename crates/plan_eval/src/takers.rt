ghost use Rattle.std.specs.Prelude.{◌≡◌, ◌≤◌, ◌<◌, ℕ, All, IfOk, get_or, length};
ghost use Rattle.plan_eval.specs.Takers.{AreLast};

use plan_model::Node;
use row_core::NoMemory;
use std::alloc::Global;

/// For each node the place of the last one that takes its rows, 0 where none does. The cost is that
/// of one walk over the nodes and their inputs.
pub fn last_takers(alloc: Global, nodes: &[Node]) -> Result<Vec<usize>, NoMemory>
    ensures { IfOk result (λ last. AreLast nodes.now last.items) }
{
    let mut last = vec![in alloc; 0; nodes.len()]?;
    for (place, node) in nodes.iter().enumerate() {
        mark(&mut last, node.inputs.as_slice(), place);
    }
    Ok(last)
}

// Notes that the node at this place takes the inputs.
fn mark(last: &mut Vec<usize>, inputs: &[u32], place: usize)
    ensures long { length last.new.items ≡ length last.old.items }
    ensures raised { (other : ℕ) → get_or last.old.items other 0 ≤ get_or last.new.items other 0 }
    ensures marked { All (λ input. input < length last.old.items
        → place ≤ get_or last.new.items input 0) inputs.now }
{
    for input in inputs {
        raise(last, *input as usize, place);
    }
}

fn raise(last: &mut Vec<usize>, input: usize, place: usize)
    ensures long { length last.new.items ≡ length last.old.items }
    ensures raised { (other : ℕ) → get_or last.old.items other 0 ≤ get_or last.new.items other 0 }
    ensures marked { input < length last.old.items → place ≤ get_or last.new.items input 0 }
{
    if input < last.len() && last[input] < place {
        last[input] = place;
    }
}
