use crate::Race;
use std::sync::Arc;
use task_body::Task;

/// A task to run and the race that it runs in, or that the board is stopped.
#[derive(Drop)]
pub enum Claim {
    Task(Arc<Task>, Race),
    Stop,
}
