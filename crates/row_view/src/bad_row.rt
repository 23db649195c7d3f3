/// Bytes are not rows of the width that was asked for.
#[derive(Clone, Copy, Debug, PartialEq, Eq)]
pub struct BadRow {
    /// At this byte, counted from 0, a row of the width should begin, and none stands there.
    pub at: u64,
}
