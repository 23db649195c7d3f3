use event_codec::EventError;
use exec_graph::GraphError;
use job_events::ReplayError;
use row_core::NoMemory;
use std::io;

/// Why a trial ended.
#[derive(Clone, Copy, Debug)]
pub enum TrialError {
    /// The words are no trial, or nothing could be printed.
    Words,
    NoMemory,
    /// The log's events are not those of a job.
    Log,
}

impl From<NoMemory> for TrialError {
    fn from(_: NoMemory) -> Self {
        TrialError::NoMemory
    }
}

impl From<GraphError> for TrialError {
    fn from(error: GraphError) -> Self {
        match error {
            GraphError::NoMemory => TrialError::NoMemory,
            _ => TrialError::Log,
        }
    }
}

impl From<ReplayError> for TrialError {
    fn from(error: ReplayError) -> Self {
        match error {
            ReplayError::NoMemory => TrialError::NoMemory,
            ReplayError::BadLog { .. } => TrialError::Log,
        }
    }
}

impl From<EventError> for TrialError {
    fn from(error: EventError) -> Self {
        match error {
            EventError::NoMemory => TrialError::NoMemory,
            EventError::Bad { .. } => TrialError::Log,
        }
    }
}

impl From<io::Error> for TrialError {
    fn from(_: io::Error) -> Self {
        TrialError::Words
    }
}
