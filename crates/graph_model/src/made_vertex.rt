use crate::SubtaskStates;
use vertex_builder::Vertex;

/// A vertex that was made, and its subtasks: none until it is decided.
#[derive(Debug, Drop)]
pub struct MadeVertex {
    pub vertex: Vertex,
    pub subtasks: SubtaskStates,
}
