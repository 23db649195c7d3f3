ghost use Rattle.std.specs.Prelude.{◌≡◌, ◌<◌, ◌≤◌, ◌+◌, ◌%◌, ◌++◌, [], ℕ, List, IsTrue, IfOk, OnOk, get_or, length, replicate, slice_set};
ghost use Rattle.std.specs.List.{AllByRecursion};
ghost use Rattle.row_cells.specs.Cutting.{ships_to, IsCutInto};
ghost use Rattle.row_core.specs.Encoding.{row_bytes, TextFits};
ghost use Rattle.row_core.specs.Values.{width_limit};
ghost use Rattle.row_view.specs.Views.{row_seen};

use crate::placing::place_of;
use row_collector::Collector;
use row_core::{Bytes, NoMemory};
use row_view::{ValueRef, put_row};
use std::alloc::Global;
use vertex_builder::VertexOutput;

/// The cells that an attempt cuts its rows into for one output, as their bytes.
#[derive(Debug, Drop)]
pub struct OutputCells<'a> {
    output: &'a VertexOutput,
    width: u32,
    attempt: u32,
    // The cell of the next row, where rows are dealt out in turn.
    turn: u32,
    cells: Vec<Bytes>,
    ghost ships: { IsTrue (ships_to width output.now.cells output.now.ship) },
    ghost in_turn: { turn < output.now.cells },
    ghost count: { length cells.items ≡ output.now.cells },
}

impl<'a> OutputCells<'a> {
    ghost use Rattle.bag_laws.specs.Rows.{OneRow};
    ghost use Rattle.row_cells.specs.Held.{HoldsCells};

    /// The output's cells, without a row, for rows of this width of the attempt of this number.
    pub fn new(
        alloc: Global,
        output: &'a VertexOutput,
        width: u32,
        attempt: u32,
    ) -> Result<Self, NoMemory>
        requires some { 0 < output.now.cells }
        requires ships { IsTrue (ships_to width output.now.cells output.now.ship) }
        ensures width { IfOk result (λ made. made.width ≡ width) }
        ensures of { IfOk result
            (λ made. (made.output.now ≡ output.now) × (made.attempt ≡ attempt)) }
        ensures none { IfOk result (λ made. HoldsCells made []) }
    {
        let turn = attempt % output.cells;
        let cells = empty_cells(alloc, output.cells)?;
        Ok(OutputCells {
            output,
            width,
            attempt,
            turn,
            cells,
        })
    }

    /// The bytes of each cell.
    pub fn into_vec(self) -> Vec<Bytes>
        ensures { (rows : List OneRow) → HoldsCells self.entry rows
            → IsCutInto self.entry.width self.entry.attempt self.entry.output.now rows
            result.items }
    {
        self.cells
    }
}

impl<'a> Collector for OutputCells<'a> {
    ghost use Rattle.std.specs.Prelude.{ℕ};
    ghost use Rattle.row_cells.specs.Held.{HoldsCells};
    ghost use Rattle.vertex_builder.specs.declared.vertex_output.VertexOutput.{VertexOutput};

    ghost width = { λ c. c.width };

    ghost Kept = { VertexOutput × ℕ };

    ghost kept = { λ c. (c.output.now, c.attempt) };

    ghost holds = { HoldsCells };

    fn collect(&mut self, row: &[ValueRef]) -> Result<(), NoMemory> {
        let cells = self.output.cells;
        let place = place_of(&self.output.ship, cells, self.turn, row);
        put_in(&mut self.cells, place as usize, row)?;
        let turn = next_turn(self.turn, cells);
        self.turn = turn;
        Ok(())
    }
}

// So many cells without a row.
fn empty_cells(alloc: Global, count: u32) -> Result<Vec<Bytes>, NoMemory>
    ensures { IfOk result (λ cells. cells.items ≡ replicate count []) }
{
    let mut cells = Vec::with_capacity(alloc, count as usize)?;
    for _ in 0..count {
        cells.push(Bytes::new(alloc))?;
    }
    Ok(cells)
}

// Adds the row to the cell at a place.
fn put_in(cells: &mut Vec<Bytes>, place: usize, row: &[ValueRef]) -> Result<(), NoMemory>
    requires place { place < length cells.old.items }
    requires width { length row.now ≤ width_limit }
    requires texts { AllByRecursion TextFits (row_seen row.now) }
    ensures count { length cells.new.items ≡ length cells.old.items }
    ensures put { OnOk result (cells.new.items ≡ slice_set cells.old.items place
        (get_or cells.old.items place [] ++ row_bytes (row_seen row.now))) }
{
    put_row(&mut cells[place], row)
}

// The cell after this one, and after the last the first.
fn next_turn(turn: u32, cells: u32) -> u32
    requires { turn < cells }
    ensures next { result ≡ (turn + 1) % cells }
    ensures within { result < cells }
{
    (turn + 1) % cells
}
