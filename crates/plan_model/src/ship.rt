use row_core::Columns;

/// How rows go from one vertex to the next.
#[derive(Debug, Drop)]
pub enum Ship {
    /// Each subtask's rows stay together.
    Forward,
    /// Rows with equal keys, the values of these columns, go to one cell.
    Hash(Columns),
    /// Rows are dealt out in turn.
    Rebalance,
    /// All rows go to every subtask.
    Broadcast,
}
