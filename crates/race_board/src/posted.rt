use crate::Race;
use std::sync::Arc;
use task_body::Task;

/// The task of a pending offer, and its race.
#[derive(Drop)]
pub struct Posted {
    pub task: Arc<Task>,
    pub race: Race,
}
