ghost use Rattle.std.specs.Prelude.{◌≡◌};
ghost use Rattle.event_log.specs.declared.log_error.LogError.TheVariants.{NoMemory};
ghost use Rattle.event_log.specs.Answers.{log_error};

use crate::Blocks;
use estate::EstateError;
use std::alloc::AllocError;

#[derive(Debug, Drop)]
pub enum LogError {
    /// The log had a fault. It is started anew before further use.
    Fault,
    /// The log has, or would have, this many bytes, which is more than it may.
    TooLarge { asked: u64 },
    /// The block of this number, from 0, is broken: it and the gate after it do not lie within the
    /// log. The blocks before it are whole.
    BadBlock { block: u64, before: Blocks },
    /// Nothing changed.
    NoMemory,
}

impl From<EstateError> for LogError {
    ghost from_gives = { λ error made. made ≡ log_error error };

    fn from(error: EstateError) -> Self {
        match error {
            EstateError::Failed => LogError::Fault,
            EstateError::NoMemory => LogError::NoMemory,
        }
    }
}

impl From<AllocError> for LogError {
    ghost from_gives = { λ _ error. error ≡ NoMemory };

    fn from(_: AllocError) -> Self {
        LogError::NoMemory
    }
}
