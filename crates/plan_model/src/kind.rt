/// What the cells of a source's column are read as.
#[derive(Clone, Copy, Debug, PartialEq, Eq)]
pub enum Kind {
    IntKind,
    TextKind,
}
