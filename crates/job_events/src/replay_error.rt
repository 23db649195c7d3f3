ghost use Rattle.std.specs.Prelude.{◌≡◌};
ghost use Rattle.job_events.specs.declared.replay_error.ReplayError.TheVariants.{NoMemory};

use std::alloc::{AllocError, AllocFailed};

/// Why a log is not replayed.
#[derive(Clone, Copy, Debug, PartialEq, Eq)]
pub enum ReplayError {
    /// The event of this number in the block of this number, both from 0, has no spelling or is not
    /// legal after those before it; or the block is broken, and its event is 0. It is the first
    /// such place of the log.
    BadLog { block: u64, event: u64 },
    NoMemory,
}

impl From<AllocError> for ReplayError {
    ghost from_gives = { λ _ error. error ≡ NoMemory };

    fn from(_: AllocError) -> Self {
        ReplayError::NoMemory
    }
}

impl<T: Drop> From<AllocFailed<T>> for ReplayError {
    ghost from_gives = { λ _ error. error ≡ NoMemory };

    fn from(_: AllocFailed<T>) -> Self {
        ReplayError::NoMemory
    }
}
