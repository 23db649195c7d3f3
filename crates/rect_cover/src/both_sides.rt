//! Tests of the rects that the subtasks of a join have of its two sides.

ghost use Rattle.std.specs.Prelude.{◌≡◌, ◌<◌, ◌↔◌, ℕ, IsTrue};
ghost use Rattle.rect_cover.specs.Cells.{pairs_in_all, rects_of, touches as touches_column};
ghost use Rattle.rect_cover.specs.Covers.{EachPair, SameColumns};

use crate::all_subtasks::{by_columns, change_after_in_all};
use crate::one_input::{times_in, touches};
use crate::{Grid, Subtask};

// Whether the pair of the column's cells of a left and a right producer is in exactly one subtask,
// once.
fn pair_once(
    subtasks: &[Subtask],
    input: usize,
    other: usize,
    left: u32,
    right: u32,
    cell: u32,
) -> bool
    ensures { IsTrue result ↔ (pairs_in_all subtasks.now input other left right cell ≡ 1) }
{
    let mut found = false;
    for subtask in subtasks {
        let lefts = times_in(subtask.rects(input), left, cell);
        if lefts > 0 {
            let rights = times_in(subtask.rects(other), right, cell);
            if rights > 0 {
                if found || lefts > 1 || rights > 1 {
                    return false;
                }
                found = true;
            }
        }
    }
    found
}

// The same, for every right producer.
fn pairs_of(
    subtasks: &[Subtask],
    input: usize,
    other: usize,
    left: u32,
    cell: u32,
    producers: u32,
) -> bool
    ensures { IsTrue result ↔ ((q : ℕ) → q < producers
        → pairs_in_all subtasks.now input other left q cell ≡ 1) }
{
    let mut right = 0;
    while right < producers {
        if !pair_once(subtasks, input, other, left, right, cell) {
            return false;
        }
        right = change_after_in_all(subtasks, other, right, cell, producers);
    }
    true
}

// The same, for every left and right producer.
fn column_pairs(
    subtasks: &[Subtask],
    left: &Grid,
    input: usize,
    right: &Grid,
    other: usize,
    cell: u32,
) -> bool
    ensures { IsTrue result ↔ ((p q : ℕ) → p < left.now.producers → q < right.now.producers
        → pairs_in_all subtasks.now input other p q cell ≡ 1) }
{
    let mut producer = 0;
    while producer < left.producers {
        if !pairs_of(subtasks, input, other, producer, cell, right.producers) {
            return false;
        }
        producer = change_after_in_all(subtasks, input, producer, cell, left.producers);
    }
    true
}

pub fn each_pair(
    subtasks: &[Subtask],
    left: &Grid,
    input: usize,
    right: &Grid,
    other: usize,
) -> bool
    ensures { IsTrue result ↔ EachPair left.now input right.now other subtasks.now }
{
    for cell in 0..left.cells.min(right.cells) {
        if !column_pairs(subtasks, left, input, right, other, cell) {
            return false;
        }
    }
    true
}

fn touch_the_same(subtask: &Subtask, input: usize, other: usize, cells: u32) -> bool
    ensures { IsTrue result ↔ ((s : ℕ) → s < cells
        → touches_column (rects_of subtask.now input) s
        ≡ touches_column (rects_of subtask.now other) s) }
{
    (0..cells).all(|cell| touches(subtask.rects(input), cell)
        == touches(subtask.rects(other), cell))
}

pub fn same_columns(
    subtasks: &[Subtask],
    left: &Grid,
    input: usize,
    right: &Grid,
    other: usize,
) -> bool
    ensures { IsTrue result ↔ SameColumns left.now input right.now other subtasks.now }
{
    let cells = left.cells.max(right.cells);
    subtasks
        .iter()
        .all(|subtask| touch_the_same(subtask, input, other, cells))
        && by_columns(subtasks, input, left)
        && by_columns(subtasks, other, right)
}
