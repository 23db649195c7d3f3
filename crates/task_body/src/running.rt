ghost use Rattle.std.specs.Prelude.{◌≡◌, IfOk};
ghost use Rattle.task_body.specs.Parts.{Gives};

use crate::chaining::chain_batch;
use crate::heading::head_batch;
use crate::outputs::cut_each;
use crate::{Ran, Task};
use estate::Edges;
use row_core::NoMemory;
use std::alloc::Global;
use std::sync::Arc;

/// Runs a task. It is refused for want of memory alone.
pub fn run_task(alloc: Global, task: Arc<Task>) -> Result<Ran, NoMemory>
    ensures { IfOk result (λ ran. ran.task ≡ task) }
{
    let edges = edges_of(alloc, &task)?;
    Ok(Ran { task, edges })
}

// The cells of each output.
fn edges_of(alloc: Global, task: &Task) -> Result<Edges, NoMemory>
    ensures { IfOk result (λ edges. Gives task.now edges) }
{
    let head = head_batch(alloc, task)?;
    let batch = chain_batch(alloc, task, head)?;
    let outputs = task.vertex().outputs.as_slice();
    let attempt = task.name().attempt;
    cut_each(alloc, outputs, attempt, batch.width, &batch.rows)
}
