ghost use Rattle.std.specs.Prelude.{◌≡◌};
ghost use Rattle.batch_commands.specs.Refusals.{replay_refusal};
ghost use Rattle.batch_commands.specs.declared.log_refusal.LogRefusal.TheVariants.{NoMemory};

use job_events::ReplayError;
use std::alloc::AllocError;

/// Why the events of the log are not shown.
#[derive(Clone, Copy, Debug, PartialEq, Eq)]
pub enum LogRefusal {
    /// The log had a fault, which it counted.
    Fault,
    /// The log has this many bytes, more than a log may have.
    TooLarge { asked: u64 },
    /// The first place of the log at which something is wrong.
    BadLog { block: u64, event: u64 },
    NoMemory,
}

impl From<ReplayError> for LogRefusal {
    ghost from_gives = { λ error refusal. refusal ≡ replay_refusal error };

    fn from(error: ReplayError) -> Self {
        match error {
            ReplayError::BadLog { block, event } => LogRefusal::BadLog { block, event },
            ReplayError::NoMemory => LogRefusal::NoMemory,
        }
    }
}

impl From<AllocError> for LogRefusal {
    ghost from_gives = { λ _ refusal. refusal ≡ NoMemory };

    fn from(_: AllocError) -> Self {
        LogRefusal::NoMemory
    }
}
