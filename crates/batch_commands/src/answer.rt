use crate::{Quantity, RefusedKind, Unbuilt};
use batch_words::WordKind;
use row_core::Bytes;

/// What a call of the program answers. docs/SEMANTICS.md says when each comes, with its line and its
/// exit status.
#[derive(Debug, Drop)]
pub enum Answer {
    /// The sink has the job's one commit, and the line was printed.
    Finished,
    /// What was asked for was printed.
    Shown,
    /// The words are no command of this call: the fault is at word number `at`, from 0.
    Usage {
        at: u64,
        kind: WordKind,
    },
    /// The job's text, or its plan, has this first fault, in this node and at this name.
    JobRefused {
        kind: RefusedKind,
        node: Option<u32>,
        name: Option<Bytes>,
    },
    /// The log had a fault, which it counted.
    LogFault,
    /// The sink had a fault, which it counted.
    SinkFault,
    /// The inputs had a fault, which they counted.
    InputFault,
    /// The line or the text could not be printed; a job that was run has its one commit.
    PrintFault,
    /// The log is wrong at this event of this block, both from 0, and nowhere before: the event has no
    /// spelling or is not legal after those before it, or the block is broken, and its event is 0.
    BadLog {
        block: u64,
        event: u64,
    },
    /// This is more than the quantity's limit.
    TooLarge {
        what: Quantity,
        number: u128,
    },
    /// This is not built yet.
    NotBuilt {
        what: Unbuilt,
    },
    /// Memory was refused.
    NoMemory,
}
