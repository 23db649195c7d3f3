use row_core::Bytes;
use row_view::EncodedRows;

/// A cell that a task reads.
#[derive(Debug, Drop)]
pub enum TaskCell {
    /// A table's file.
    File(Bytes),
    /// The rows of a part's cell.
    Cell(EncodedRows),
}
