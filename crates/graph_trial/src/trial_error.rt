use event_graph::GraphError;
use plan_model::PlanError;
use row_core::NoMemory;
use std::io;

/// Why a trial ended.
#[derive(Clone, Copy, Debug)]
pub enum TrialError {
    /// The words are no trial.
    Words,
    NoMemory,
    /// The plan has a fault.
    Plan,
    /// The graph took an event not as the trial wants it.
    Graph,
}

impl From<NoMemory> for TrialError {
    fn from(_: NoMemory) -> Self {
        TrialError::NoMemory
    }
}

impl From<GraphError> for TrialError {
    fn from(error: GraphError) -> Self {
        match error {
            GraphError::NoMemory => TrialError::NoMemory,
            _ => TrialError::Graph,
        }
    }
}

impl From<PlanError> for TrialError {
    fn from(_: PlanError) -> Self {
        TrialError::Plan
    }
}

impl From<io::Error> for TrialError {
    fn from(_: io::Error) -> Self {
        TrialError::Words
    }
}
