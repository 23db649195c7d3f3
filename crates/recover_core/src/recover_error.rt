ghost use Rattle.std.specs.Prelude.{◌≡◌};
ghost use Rattle.recover_core.specs.declared.recover_error.RecoverError.TheVariants.{NoMemory};

use graph_model::Sub;
use row_core::Bytes;
use std::alloc::{AllocError, AllocFailed};

/// Why a job is not recovered. Where several causes hold, the first of them in this order is told,
/// but want of memory and the faults of log, shelf and sink, which come where they are met.
#[derive(Debug, Drop)]
pub enum RecoverError {
    /// The log had a fault.
    LogFault,
    /// The log has, or would have with the block that opens the epoch, this many bytes, which is
    /// more than it may.
    LogTooLarge {
        asked: u128,
    },
    /// The event of this number in the block of this number, both from 0, has no spelling or is not
    /// legal after those before it; or the block is broken, and its event is 0. It is the first
    /// such place of the log.
    BadLog {
        block: u64,
        event: u64,
    },
    /// The log is another job's: its text differs first at this place, or it has none.
    OtherJob {
        at: u64,
    },
    /// A file's size is another than when the job was started: the first such, by table and file,
    /// with both sizes in bytes, where the file is there.
    InputChanged {
        table: u64,
        file: u64,
        was: Option<u64>,
        now: Option<u64>,
    },
    /// The sink had a fault.
    SinkFault,
    /// The text of another job stands under the job's id.
    IdTaken {
        other: Bytes,
    },
    /// The job's commit stands, and the log is not that of a complete job. This is the first subtask
    /// without a winner, if one was decided.
    AlreadyCommitted {
        unfinished: Option<Sub>,
    },
    /// The log says that the job has finished, and no commit of it stands.
    LostCommit,
    /// There is no further epoch.
    TooManyEpochs,
    /// The shelf had a fault.
    ShelfFault,
    NoMemory,
}

impl From<AllocError> for RecoverError {
    ghost from_gives = { λ _ error. error ≡ NoMemory };

    fn from(_: AllocError) -> Self {
        RecoverError::NoMemory
    }
}

impl<T: Drop> From<AllocFailed<T>> for RecoverError {
    ghost from_gives = { λ _ error. error ≡ NoMemory };

    fn from(_: AllocFailed<T>) -> Self {
        RecoverError::NoMemory
    }
}
