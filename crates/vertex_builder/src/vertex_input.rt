use plan_model::Ship;

/// What comes into a vertex at one input of a node: the rows of another node, or a source's files,
/// where `from` is None.
#[derive(Debug, Drop)]
pub struct VertexInput {
    pub from: Option<u32>,
    /// The node that takes the rows, and at which of its inputs.
    pub into: u32,
    pub place: u32,
    pub ship: Ship,
}
