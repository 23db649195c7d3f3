ghost use Rattle.std.specs.Prelude.{IfOk};
ghost use Rattle.plan_model.specs.Nodes.{Alike};
ghost use Rattle.task_body.specs.Plans.{IsEncodable};
ghost use Rattle.task_body.specs.TaskRows.{task_head};

use crate::Task;
use crate::batch::Batch;
use crate::operating::operate;
use crate::reading::read_input;
use plan_model::Op;
use row_core::NoMemory;
use std::alloc::Global;

/// What the head of a task's chain gives.
pub fn head_batch(alloc: Global, task: &Task) -> Result<Batch, NoMemory>
    ensures given { IfOk result (λ batch. Alike batch (task_head task.now)) }
    ensures fit { IfOk result (λ batch. IsEncodable batch) }
{
    let op = task.head_op();
    let attempt = task.name().attempt;
    let heads = task.head_inputs();
    match op {
        Op::Source { .. } => read_input(alloc, op, attempt, &heads[0]),
        _ => operate(alloc, op, attempt, heads),
    }
}
