use crate::Kind;
use row_core::Bytes;

/// A column of a source. Its name is for the reader of the job alone: nodes name columns by place.
#[derive(Debug, Drop)]
pub struct Column {
    pub name: Bytes,
    pub kind: Kind,
}
