use crate::JobFault;
use std::alloc::{AllocError, AllocFailed};

/// Why no job was read.
#[derive(Debug, Drop)]
pub enum JobError {
    Fault(JobFault),
    NoMemory,
}

impl From<AllocError> for JobError {
    ghost use Rattle.std.specs.Prelude.{◌≡◌};
    ghost use Rattle.job_json.specs.declared.job_error.JobError.TheVariants.{NoMemory};

    ghost from_gives = { λ _ e. e ≡ NoMemory };

    fn from(_e: AllocError) -> JobError {
        JobError::NoMemory
    }
}

impl<T: Drop> From<AllocFailed<T>> for JobError {
    ghost use Rattle.std.specs.Prelude.{◌≡◌};
    ghost use Rattle.job_json.specs.declared.job_error.JobError.TheVariants.{NoMemory};

    ghost from_gives = { λ _ e. e ≡ NoMemory };

    fn from(_e: AllocFailed<T>) -> JobError {
        JobError::NoMemory
    }
}
