use crate::{Grids, ShapeKind};

/// What a vertex reads: the inputs of its head, and the wide ones, which every subtask reads whole.
#[derive(Debug, Drop)]
pub struct Shape {
    pub kind: ShapeKind,
    pub heads: Grids,
    pub wide: Grids,
}
