//! Tests of the rects that all subtasks have of one input.

ghost use Rattle.std.specs.Prelude.{◌≡◌, ◌<◌, ◌≤◌, ◌↔◌, ℕ, IsTrue, All};
ghost use Rattle.rect_cover.specs.Cells.{rects_of, times, times_in_all, touching as touched_by};
ghost use Rattle.rect_cover.specs.Covers.{LiesIn, EachOnce, HeadsOnce, HasColumns};
ghost use Rattle.rect_cover.specs.Covers.{ByColumns, IsDriven};

use crate::one_input::{change_after, has_columns, has_partners, times_in, touches};
use crate::{Grid, Subtask};

// Whether the cell is in exactly one subtask, once.
fn is_once(subtasks: &[Subtask], input: usize, producer: u32, cell: u32) -> bool
    ensures { IsTrue result ↔ (times_in_all subtasks.now input producer cell ≡ 1) }
{
    let mut found = false;
    for subtask in subtasks {
        let times = times_in(subtask.rects(input), producer, cell);
        if times > 0 {
            if found || times > 1 {
                return false;
            }
            found = true;
        }
    }
    found
}

// A later producer, up to the end, before which the column's cells stand in each subtask as often
// as the producer's.
pub fn change_after_in_all(
    subtasks: &[Subtask],
    input: usize,
    producer: u32,
    cell: u32,
    end: u32,
) -> u32
    requires { producer < end }
    ensures after { producer < result }
    ensures within { result ≤ end }
    ensures same { All (λ subtask. (p : ℕ) → producer ≤ p → p < result
        → times (rects_of subtask input) p cell ≡ times (rects_of subtask input) producer cell)
        subtasks.now }
{
    let mut change = end;
    for subtask in subtasks {
        change = change_after(subtask.rects(input), producer, cell, change);
    }
    change
}

// Whether each cell of the column is in exactly one subtask, once.
fn column_once(subtasks: &[Subtask], input: usize, cell: u32, producers: u32) -> bool
    ensures { IsTrue result ↔ ((p : ℕ) → p < producers
        → times_in_all subtasks.now input p cell ≡ 1) }
{
    let mut producer = 0;
    while producer < producers {
        if !is_once(subtasks, input, producer, cell) {
            return false;
        }
        producer = change_after_in_all(subtasks, input, producer, cell, producers);
    }
    true
}

// Whether each cell is in exactly one subtask, once.
pub fn each_once(subtasks: &[Subtask], input: usize, grid: &Grid) -> bool
    ensures { IsTrue result ↔ EachOnce grid.now input subtasks.now }
{
    for cell in 0..grid.cells {
        if !column_once(subtasks, input, cell, grid.producers) {
            return false;
        }
    }
    true
}

pub fn heads_once(subtasks: &[Subtask], heads: &[Grid]) -> bool
    ensures { IsTrue result ↔ HeadsOnce heads.now subtasks.now }
{
    heads
        .iter()
        .enumerate()
        .all(|(input, grid)| each_once(subtasks, input, grid))
}

fn touching(subtasks: &[Subtask], input: usize, cell: u32) -> usize
    ensures { result ≡ touched_by subtasks.now input cell }
{
    subtasks
        .iter()
        .filter(|subtask| touches(subtask.rects(input), cell))
        .count()
}

fn columns_once(subtasks: &[Subtask], input: usize, cells: u32) -> bool
    ensures { IsTrue result ↔ ((s : ℕ) → s < cells → touched_by subtasks.now input s ≡ 1) }
{
    (0..cells).all(|cell| touching(subtasks, input, cell) == 1)
}

fn all_whole(subtasks: &[Subtask], input: usize, grid: &Grid) -> bool
    ensures { IsTrue result
        ↔ All (λ subtask. HasColumns grid.now (rects_of subtask input)) subtasks.now }
{
    subtasks
        .iter()
        .all(|subtask| has_columns(subtask.rects(input), grid))
}

pub fn by_columns(subtasks: &[Subtask], input: usize, grid: &Grid) -> bool
    ensures { IsTrue result ↔ ByColumns grid.now input subtasks.now }
{
    all_whole(subtasks, input, grid) && columns_once(subtasks, input, grid.cells)
}

pub fn is_driven(
    subtasks: &[Subtask],
    left: &Grid,
    input: usize,
    right: &Grid,
    other: usize,
) -> bool
    requires { All (λ subtask. All (LiesIn left.now) (rects_of subtask input)) subtasks.now }
    ensures { IsTrue result ↔ IsDriven left.now input right.now other subtasks.now }
{
    subtasks.iter().all(|subtask| has_partners(
        left,
        right,
        subtask.rects(input),
        subtask.rects(other),
    )) && each_once(subtasks, input, left)
}
