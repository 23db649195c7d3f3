use crate::{Cause, FileSizes, Subs};
use estate::{EdgeSizes, Names, PartName};
use plan_model::Side;
use rect_cover::Assignment;
use row_core::Bytes;
use vertex_builder::NodeList;

/// What happened to a job, as it stands in the log; docs/SEMANTICS.md says which events are legal
/// when.
#[derive(Debug, Drop)]
pub enum Event {
    /// A run begins, by the number of its epoch.
    Opened {
        epoch: u32,
    },
    /// The job's text, and the sizes of its files in bytes, by table.
    Started {
        job: Bytes,
        files: FileSizes,
    },
    /// The next vertex was made, of this chain of nodes.
    Made {
        vertex: u32,
        nodes: NodeList,
    },
    /// A join is chained after its probe side; the other side, this one, is read whole.
    Widened {
        node: u32,
        side: Side,
    },
    /// How the cells that a vertex reads are given to its subtasks.
    Decided {
        vertex: u32,
        assignment: Assignment,
    },
    /// An attempt won for its subtask: the parts that it read, in their order, and the lengths of
    /// its cells in bytes.
    Done {
        name: PartName,
        inputs: Names,
        sizes: EdgeSizes,
    },
    /// Parts are gone, and these subtasks run again.
    Reset {
        gone: Names,
        subtasks: Subs,
    },
    /// An attempt failed, or a part was found lost.
    Trouble {
        cause: Cause,
    },
    /// The job ended: failed, or finished.
    Ended {
        failed: bool,
    },
}
