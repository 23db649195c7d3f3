ghost use Rattle.std.specs.Arc.{arc_value};
ghost use Rattle.task_body.specs.Parts.{Gives, gives_once};

use crate::Task;
use estate::Edges;
use std::sync::Arc;

/// A task that ran to its end, and the cells of each output. Their rows are some that the task may
/// give.
#[derive(Debug, Drop)]
pub struct Ran {
    pub task: Arc<Task>,
    pub edges: Edges,
    pub ghost given: { Gives (arc_value task) edges } by { gives_once (arc_value task) edges },
}
