use row_core::Row;

/// A row with its key's hash beside it, which most comparisons look at alone.
#[derive(Clone, Copy, Drop)]
pub struct Keyed<'a> {
    pub hash: u64,
    pub row: &'a Row,
}
