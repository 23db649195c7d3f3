/// A row by its place in its table, with its hash beside it, which most comparisons look at alone.
#[derive(Clone, Copy, Drop)]
pub struct HashedRow {
    pub hash: u64,
    pub place: usize,
}
