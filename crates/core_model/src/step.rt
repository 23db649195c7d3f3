use crate::Arrival;
use estate::{Names, PartName};
use graph_model::Subs;
use plan_model::Side;

/// One step of the master; docs/SEMANTICS.md says where each is allowed and what it changes.
#[derive(Debug, Drop)]
pub enum Step {
    /// The clock was read, in milliseconds.
    Tick { now: u64 },
    /// A deployed attempt came back.
    Arrive { name: PartName, kind: Arrival },
    /// The next vertex was made.
    Make { vertex: u32 },
    /// A join was chained after its probe side; this side of it is read whole.
    Widen { node: u32, side: Side },
    /// It was decided what the subtasks of a vertex read.
    Decide { vertex: u32 },
    /// An attempt was offered to a worker.
    Deploy { name: PartName, worker: u32 },
    /// Winners' parts were found gone, and these subtasks run again.
    Reset { gone: Names, subtasks: Subs },
    /// A winner's part was found gone, and nothing runs again.
    Spent { name: PartName },
    /// So many events were written to the log, as one block.
    Flush { events: u64 },
    /// The job's text was committed: in this step, or before.
    Commit { fresh: bool },
    /// The job ended.
    End { failed: bool },
}
