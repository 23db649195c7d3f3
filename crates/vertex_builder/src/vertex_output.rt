use plan_model::Ship;

/// Where the rows of a vertex go: to one input of a node, or to a sink's text, where `into` is
/// None.
#[derive(Debug, Drop)]
pub struct VertexOutput {
    pub into: Option<u32>,
    /// The input of that node.
    pub place: u32,
    pub ship: Ship,
    /// How many cells a subtask cuts its rows into.
    pub cells: u32,
}
