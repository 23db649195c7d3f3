use rect_cover::Rect;

/// A column of a join, or a piece of one: its cells on both sides, and their size in bytes.
#[derive(Clone, Copy, Debug)]
pub struct Item {
    pub left: Rect,
    pub right: Rect,
    pub size: u64,
}
