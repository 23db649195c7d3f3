use estate::{Edges, PartName};

/// What one attempt wrote: for each output edge its cells.
#[derive(Debug, Drop)]
pub struct Part {
    pub name: PartName,
    pub edges: Edges,
}
