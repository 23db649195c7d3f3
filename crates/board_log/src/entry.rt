use crate::Kind;
use estate::PartName;

/// One call of the board, and what it answered.
#[derive(Clone, Copy, Debug, PartialEq, Eq)]
pub enum Entry {
    /// An attempt was offered to a worker.
    Offer {
        worker: u32,
        name: PartName,
    },
    /// The worker took it.
    Claim {
        worker: u32,
        name: PartName,
    },
    /// The worker was told that the board is stopped.
    Halted {
        worker: u32,
    },
    /// The worker told of an attempt.
    Told {
        worker: u32,
        name: PartName,
        kind: Kind,
    },
    /// The master took so many reports.
    Drained {
        count: usize,
    },
    /// The master withdrew an offer; `out` is whether no worker had claimed it.
    Cancelled {
        name: PartName,
        out: bool,
    },
    Stopped,
}
