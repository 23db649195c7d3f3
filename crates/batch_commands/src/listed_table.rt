use row_core::Bytes;

/// A table of a job, and how many files it has.
#[derive(Debug, Drop)]
pub struct ListedTable {
    pub table: Bytes,
    pub files: u32,
}
