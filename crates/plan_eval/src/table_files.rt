use crate::Files;
use row_core::Bytes;

/// A table's name, and its rows as the contents of its files.
#[derive(Debug, Drop)]
pub struct TableFiles {
    pub table: Bytes,
    pub rows: Files,
}
