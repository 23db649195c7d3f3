ghost use Rattle.std.specs.Prelude.{◌≡◌, ◌+◌, ◌^◌, ◌<◌, IfOk, length, sum, sum_by};
ghost use Rattle.grid_groups.specs.Sizes.{capped, cell_size, producer_size, column_size, producer_sizes, column_sizes};

use rect_cover::Grid;
use std::alloc::Global;
use volume_split::{BigSizes, NoMemory};

/// The size of each producer of a grid, that of all its cells, in bytes. A size past 64 bits counts
/// as the greatest number of 64 bits.
pub fn producer_sizes(alloc: Global, grid: &Grid) -> Result<BigSizes, NoMemory>
    ensures sizes { IfOk result (λ sizes. sizes ≡ producer_sizes grid.now) }
    ensures few { IfOk result (λ sizes. length sizes < 2 ^ 32) }
    ensures summable { IfOk result (λ sizes. sum sizes < 2 ^ 128) }
{
    let mut sizes = Vec::with_capacity(alloc, grid.producers as usize)?;
    for producer in 0..grid.producers {
        sizes.push(u128::from(producer_size(grid, producer)))?;
    }
    Ok(BigSizes::from_vec(sizes))
}

/// The size of each of the first columns, that of its cells in all of the grids, in bytes. A size
/// past 64 bits counts as the greatest number of 64 bits.
pub fn column_sizes(alloc: Global, columns: u32, grids: &[Grid]) -> Result<BigSizes, NoMemory>
    ensures sizes { IfOk result (λ sizes. sizes ≡ column_sizes columns grids.now) }
    ensures few { IfOk result (λ sizes. length sizes < 2 ^ 32) }
    ensures summable { IfOk result (λ sizes. sum sizes < 2 ^ 128) }
{
    let mut sizes = Vec::with_capacity(alloc, columns as usize)?;
    for column in 0..columns {
        sizes.push(u128::from(size_of_all(grids, column)))?;
    }
    Ok(BigSizes::from_vec(sizes))
}

fn size_of_all(grids: &[Grid], column: u32) -> u64
    ensures { result ≡ capped (sum_by (λ grid. column_size grid column) grids.now) }
{
    let mut total: u64 = 0;
    for grid in grids {
        total = total.saturating_add(column_size(grid, column));
    }
    total
}

/// The size of a column of one grid, in bytes, capped as above.
pub fn column_size(grid: &Grid, column: u32) -> u64
    ensures { result ≡ capped (column_size grid.now column) }
{
    let mut total: u64 = 0;
    for producer in 0..grid.producers {
        total = total.saturating_add(cell_size(grid, producer, column));
    }
    total
}

fn producer_size(grid: &Grid, producer: u32) -> u64
    ensures { result ≡ capped (producer_size grid.now producer) }
{
    let mut total: u64 = 0;
    for cell in 0..grid.cells {
        total = total.saturating_add(cell_size(grid, producer, cell));
    }
    total
}

/// The size of a cell, in bytes; 0 where the grid has none.
pub fn cell_size(grid: &Grid, producer: u32, cell: u32) -> u64
    ensures { result ≡ cell_size grid.now producer cell }
{
    let place = u64::from(producer) * u64::from(grid.cells) + u64::from(cell);
    let size = grid.sizes.as_slice().get(place as usize);
    size.copied().unwrap_or(0)
}
