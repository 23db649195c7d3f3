//! Tests of the rects of one input. A column is looked at where the rects of it begin and end, and
//! not cell by cell.

ghost use Rattle.std.specs.Prelude.{◌≡◌, ◌<◌, ◌≤◌, ◌↔◌, ℕ, IsTrue, All};
ghost use Rattle.std.specs.List.{AllZip};
ghost use Rattle.rect_cover.specs.Cells.{times, touches as touches_column};
ghost use Rattle.rect_cover.specs.Covers.{LiesIn, IsInput, HasWhole, HasColumns, HasPartners};

use crate::{Grid, Rect, Rects};

pub fn times_in(rects: &[Rect], producer: u32, cell: u32) -> usize
    ensures { result ≡ times rects.now producer cell }
{
    rects
        .iter()
        .filter(|rect| rect.contains(producer, cell))
        .count()
}

pub fn touches(rects: &[Rect], cell: u32) -> bool
    ensures { result ≡ touches_column rects.now cell }
{
    rects.iter().any(|rect| rect.spans(cell))
}

// A later producer, up to the end, before which the column's cells stand in the rects as often as
// the producer's.
pub fn change_after(rects: &[Rect], producer: u32, cell: u32, end: u32) -> u32
    requires { producer < end }
    ensures after { producer < result }
    ensures within { result ≤ end }
    ensures same { (p : ℕ) → producer ≤ p → p < result
        → times rects.now p cell ≡ times rects.now producer cell }
{
    let mut change = end;
    for rect in rects {
        change = rect.change_after(producer, cell, change);
    }
    change
}

// Whether each cell of the column stands in the rects at least so often, and at most once.
pub fn has_column(rects: &[Rect], cell: u32, producers: u32, least: usize) -> bool
    ensures { IsTrue result ↔ ((p : ℕ) → p < producers
        → (least ≤ times rects.now p cell) × (times rects.now p cell ≤ 1)) }
{
    let mut producer = 0;
    while producer < producers {
        let times = times_in(rects, producer, cell);
        if times < least || times > 1 {
            return false;
        }
        producer = change_after(rects, producer, cell, producers);
    }
    true
}

// Whether each cell of the grid stands in the rects at least so often, and at most once.
fn has_cells(rects: &[Rect], grid: &Grid, least: usize) -> bool
    ensures { IsTrue result ↔ ((p s : ℕ) → p < grid.now.producers → s < grid.now.cells
        → (least ≤ times rects.now p s) × (times rects.now p s ≤ 1)) }
{
    for cell in 0..grid.cells {
        if !has_column(rects, cell, grid.producers, least) {
            return false;
        }
    }
    true
}

fn lies_in(rect: Rect, grid: &Grid) -> bool
    ensures { IsTrue result ↔ LiesIn grid.now rect }
{
    rect.p0 < rect.p1 && rect.p1 <= grid.producers && rect.s0 < rect.s1 && rect.s1 <= grid.cells
}

fn all_lie_in(rects: &[Rect], grid: &Grid) -> bool
    ensures { IsTrue result ↔ All (LiesIn grid.now) rects.now }
{
    rects.iter().all(|rect| lies_in(*rect, grid))
}

fn is_input(rects: &[Rect], grid: &Grid) -> bool
    ensures { IsTrue result ↔ IsInput grid.now rects.now }
{
    all_lie_in(rects, grid) && has_cells(rects, grid, 0)
}

fn has_whole(rects: &[Rect], grid: &Grid) -> bool
    ensures { IsTrue result ↔ HasWhole grid.now rects.now }
{
    has_cells(rects, grid, 1)
}

pub fn are_inputs(grids: &[Grid], inputs: &[Rects]) -> bool
    ensures { IsTrue result ↔ AllZip IsInput grids.now inputs.now }
{
    grids.len() == inputs.len()
        && grids
            .iter()
            .zip(inputs)
            .all(|(grid, rects)| is_input(rects.as_slice(), grid))
}

pub fn are_whole(grids: &[Grid], inputs: &[Rects]) -> bool
    ensures { IsTrue result ↔ AllZip HasWhole grids.now inputs.now }
{
    grids.len() == inputs.len()
        && grids
            .iter()
            .zip(inputs)
            .all(|(grid, rects)| has_whole(rects.as_slice(), grid))
}

pub fn has_columns(rects: &[Rect], grid: &Grid) -> bool
    ensures { IsTrue result ↔ HasColumns grid.now rects.now }
{
    for cell in 0..grid.cells {
        if touches(rects, cell) && !has_column(rects, cell, grid.producers, 1) {
            return false;
        }
    }
    true
}

pub fn has_partners(left: &Grid, right: &Grid, lefts: &[Rect], rights: &[Rect]) -> bool
    requires { All (LiesIn left.now) lefts.now }
    ensures { IsTrue result ↔ HasPartners left.now right.now lefts.now rights.now }
{
    for cell in 0..left.cells.min(right.cells) {
        if touches(lefts, cell) && !has_column(rights, cell, right.producers, 1) {
            return false;
        }
    }
    true
}
