use estate::EstateError;
use event_log::LogError;
use row_core::NoMemory;
use std::io;

/// Why a trial ended.
#[derive(Clone, Copy, Debug)]
pub enum TrialError {
    /// The words are no trial.
    Words,
    NoMemory,
    /// The estate had a fault.
    Fault,
    /// What was read is not what was written.
    Differs,
}

impl From<NoMemory> for TrialError {
    fn from(_: NoMemory) -> Self {
        TrialError::NoMemory
    }
}

impl From<EstateError> for TrialError {
    fn from(error: EstateError) -> Self {
        match error {
            EstateError::Failed => TrialError::Fault,
            EstateError::NoMemory => TrialError::NoMemory,
        }
    }
}

impl From<LogError> for TrialError {
    fn from(error: LogError) -> Self {
        match error {
            LogError::NoMemory => TrialError::NoMemory,
            _ => TrialError::Fault,
        }
    }
}

impl From<io::Error> for TrialError {
    fn from(_: io::Error) -> Self {
        TrialError::Words
    }
}
