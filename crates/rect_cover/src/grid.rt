use crate::CellSizes;

/// What an input has: a row of cells for each producer, and the cells' sizes. The cells of one
/// number, of all producers, are a column.
#[derive(Debug, Drop)]
pub struct Grid {
    pub producers: u32,
    pub cells: u32,
    pub sizes: CellSizes,
}
