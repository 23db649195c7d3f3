ghost use Rattle.std.specs.Prelude.{◌≡◌, ◌<◌, ◌≤◌, ◌+◌, ◌-◌, ◌^◌, ◌++◌, IfOk, OnOk, All, ℕ, length, map, sum_by};
ghost use Rattle.std.specs.List.{range_with_len};
ghost use Rattle.grid_groups.specs.Sizes.{capped, cell_size, column_size};
ghost use Rattle.skew_splitter.specs.Columns.{side_sizes, may_split, side_tried, is_skewed, is_split, grid_at, other_side, column_cells, pieces, column_rect, item_of, item_size, sizes_of, column_items, join_items, size_at};

use crate::{Item, Sizes};
use grid_groups::{cell_size, column_size};
use join_rewrite::repeats;
use plan_model::{JoinKind, Settings, Side};
use rect_cover::{Grid, Rect};
use std::alloc::Global;
use volume_split::{BigSizes, Group, NoMemory, cuts};

// The sizes of a grid's columns, in bytes.
pub fn side_sizes(alloc: Global, columns: u32, grid: &Grid) -> Result<Vec<u64>, NoMemory>
    ensures { IfOk result (λ sizes. sizes.items ≡ side_sizes columns grid.now) }
{
    let mut sizes = Vec::with_capacity(alloc, columns as usize)?;
    for column in 0..columns {
        sizes.push(column_size(grid, column))?;
    }
    Ok(sizes)
}

// Adds the items of a column: one, or one for each piece of the side that is tried.
pub fn push_column(
    alloc: Global,
    items: &mut Vec<Item>,
    kind: JoinKind,
    settings: &Settings,
    medians: Sizes,
    sizes: Sizes,
    left: &Grid,
    right: &Grid,
    column: u32,
) -> Result<(), NoMemory>
    requires within { column < 2 ^ 32 - 1 }
    requires sizes { sizes ≡ sizes_of left.now right.now column }
    ensures { OnOk result (items.new.items ≡ items.old.items
        ++ column_items kind settings.now medians left.now right.now column) }
{
    let side = side_tried(kind, sizes);
    let split = is_split(kind, settings, medians, sizes);
    match side {
        Side::Left => push_pieces(
            alloc,
            items,
            settings,
            split,
            side,
            left,
            right,
            column,
            sizes.right,
        ),
        Side::Right => push_pieces(
            alloc, items, settings, split, side, right, left, column, sizes.left,
        ),
    }
}

fn push_pieces(
    alloc: Global,
    items: &mut Vec<Item>,
    settings: &Settings,
    split: bool,
    side: Side,
    own: &Grid,
    other: &Grid,
    column: u32,
    other_size: u64,
) -> Result<(), NoMemory>
    requires within { column < 2 ^ 32 - 1 }
    requires size { other_size ≡ capped (column_size other.now column) }
    ensures { OnOk result (items.new.items ≡ items.old.items
        ++ map (item_of side own.now other.now column)
        (pieces settings.now.target_bytes split own.now column)) }
{
    let groups = pieces(
        alloc,
        u128::from(settings.target_bytes()),
        split,
        own,
        column,
    )?;
    for group in groups.as_slice() {
        items.push(item_of(side, own, other, column, other_size, *group))?;
    }
    Ok(())
}

fn pieces(
    alloc: Global,
    target: u128,
    split: bool,
    grid: &Grid,
    column: u32,
) -> Result<Vec<Group>, NoMemory>
    ensures pieces { IfOk result (λ groups. groups.items ≡ pieces target split grid.now column) }
    ensures within { IfOk result (λ groups. All (λ group. group.end < 2 ^ 32) groups.items) }
    ensures ordered { IfOk result
        (λ groups. All (λ group. group.start ≤ group.end) groups.items) }
{
    let all = Group {
        start: 0,
        end: u64::from(grid.producers),
    };
    if split {
        let cells = column_cells(alloc, grid, column)?;
        return Ok(cuts(alloc, target, &cells)?.into_vec());
    }
    Ok(vec![in alloc; all]?)
}

fn column_cells(alloc: Global, grid: &Grid, column: u32) -> Result<BigSizes, NoMemory>
    ensures { IfOk result (λ sizes. sizes ≡ column_cells grid.now column) }
{
    let mut sizes = Vec::with_capacity(alloc, grid.producers as usize)?;
    for producer in 0..grid.producers {
        sizes.push(u128::from(cell_size(grid, producer, column)))?;
    }
    Ok(BigSizes::from_vec(sizes))
}

fn item_of(side: Side, own: &Grid, other: &Grid, column: u32, other_size: u64, group: Group) -> Item
    requires ordered { group.start ≤ group.end }
    requires within { group.end < 2 ^ 32 }
    requires column { column < 2 ^ 32 - 1 }
    requires size { other_size ≡ capped (column_size other.now column) }
    ensures { result ≡ item_of side own.now other.now column group }
{
    let (start, end) = (group.start as u32, group.end as u32);
    let piece = column_rect(start, end, column);
    let whole = column_rect(0, other.producers, column);
    let size = item_size(own, column, start, end, other_size);
    match side {
        Side::Left => Item {
            left: piece,
            right: whole,
            size,
        },
        Side::Right => Item {
            left: whole,
            right: piece,
            size,
        },
    }
}

fn column_rect(start: u32, end: u32, column: u32) -> Rect
    requires { column < 2 ^ 32 - 1 }
    ensures { result ≡ column_rect start end column }
{
    Rect {
        p0: start,
        p1: end,
        s0: column,
        s1: column + 1,
    }
}

// The bytes of these producers' cells and of the other side's column.
fn item_size(own: &Grid, column: u32, start: u32, end: u32, other_size: u64) -> u64
    requires { start ≤ end }
    ensures { (before : ℕ) → other_size ≡ capped before → result ≡ capped (before
        + sum_by (λ p. cell_size own.now p column) (range_with_len start (end - start))) }
{
    let mut size = other_size;
    for producer in start..end {
        size = size.saturating_add(cell_size(own, producer, column));
    }
    size
}

fn is_split(kind: JoinKind, settings: &Settings, medians: Sizes, sizes: Sizes) -> bool
    ensures { result ≡ is_split kind settings.now medians sizes }
{
    let side = side_tried(kind, sizes);
    may_split(kind, side) && is_skewed(settings, medians.at(side), sizes.at(side))
}

fn is_skewed(settings: &Settings, median: u64, size: u64) -> bool
    ensures { result ≡ is_skewed settings.now median size }
{
    let limit = u128::from(settings.skew_percent()) * u128::from(median);
    settings.skew_bytes() < size && limit < u128::from(size) * 100
}

// The side of a column that may be split: the larger where both may be, at a tie the left.
fn side_tried(kind: JoinKind, sizes: Sizes) -> Side
    ensures { result ≡ side_tried kind sizes }
{
    let left = may_split(kind, Side::Left);
    if left && (!may_split(kind, Side::Right) || sizes.right <= sizes.left) {
        Side::Left
    } else {
        Side::Right
    }
}

fn may_split(kind: JoinKind, side: Side) -> bool
    ensures { result ≡ may_split kind side }
{
    repeats(kind, other_side(side))
}

fn other_side(side: Side) -> Side
    ensures { result ≡ other_side side }
{
    match side {
        Side::Left => Side::Right,
        Side::Right => Side::Left,
    }
}
