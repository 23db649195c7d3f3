ghost use Rattle.std.specs.Prelude.{◌≡◌, ◌≤◌, List, All, IfOk, OnOk, map};
ghost use Rattle.std.specs.List.{flat_map};
ghost use Rattle.bag_laws.specs.Rows.{OneRow};
ghost use Rattle.plan_model.specs.Nodes.{Alike};
ghost use Rattle.row_collector.specs.Collecting.{Collects};
ghost use Rattle.row_core.specs.Bags.{SameBag};
ghost use Rattle.row_core.specs.Values.{width_limit};
ghost use Rattle.task_body.specs.Cells.{HasWidth, cell_rows, file_rows};
ghost use Rattle.task_body.specs.Inputs.{ReadsFiles, input_bag, input_rows};
ghost use Rattle.task_body.specs.Plans.{IsEncodable};

use crate::batch::Batch;
use crate::{TaskCell, TaskInput};
use csv_tables::scan_table;
use plan_model::{Column, Kind, Op};
use row_collector::Collector;
use row_core::{Bytes, NoMemory};
use row_operators::RowBuffer;
use row_steps::push_rows;
use std::alloc::Global;

/// The rows of an input, as an operator reads them.
pub fn read_input(
    alloc: Global,
    op: &Op,
    attempt: u32,
    input: &TaskInput,
) -> Result<Batch, NoMemory>
    requires files { ReadsFiles op.now input.now.width }
    requires narrow { input.now.width ≤ width_limit }
    ensures read { IfOk result (λ batch. Alike batch (input_bag op.now input.now)) }
    ensures fit { IfOk result (λ batch. IsEncodable batch) }
{
    let width = input.width;
    let mut buffer = RowBuffer::new(alloc, width);
    push_input(alloc, op, attempt, input, &mut buffer)?;
    let rows = buffer.into_rows();
    Ok(Batch { width, rows })
}

/// Gives the collector the rows of an input, as an operator reads them. An attempt begins with
/// another cell than the one before it.
pub fn push_input<C: Collector>(
    alloc: Global,
    op: &Op,
    attempt: u32,
    input: &TaskInput,
    out: &mut C,
) -> Result<(), NoMemory>
    requires files { ReadsFiles op.now input.now.width }
    requires narrow { input.now.width ≤ width_limit }
    requires width { C.width out.old ≡ input.now.width }
    ensures width { OnOk result (C.width out.new ≡ C.width out.old) }
    ensures kept { OnOk result (C.kept out.new ≡ C.kept out.old) }
    ensures takes { OnOk result ((read : List OneRow) × (SameBag read (input_rows op.now input.now)
        × Collects C.holds out.old out.new read)) }
{
    let cells = input.cells.as_slice();
    let (before, after) = cells.split_at(first_cell(attempt, cells.len()));
    push_cells(alloc, op, input.width, after, out)?;
    push_cells(alloc, op, input.width, before, out)
}

// The cell that an attempt reads first, of so many.
fn first_cell(attempt: u32, count: usize) -> usize
    ensures { result ≤ count }
{
    if count == 0 {
        return 0;
    }
    attempt as usize % count
}

fn push_cells<C: Collector>(
    alloc: Global,
    op: &Op,
    width: u32,
    cells: &[TaskCell],
    out: &mut C,
) -> Result<(), NoMemory>
    requires files { ReadsFiles op.now width }
    requires narrow { width ≤ width_limit }
    requires width { C.width out.old ≡ width }
    requires cells { All (HasWidth width) cells.now }
    ensures width { OnOk result (C.width out.new ≡ C.width out.old) }
    ensures kept { OnOk result (C.kept out.new ≡ C.kept out.old) }
    ensures takes { OnOk result (Collects C.holds out.old out.new
        (flat_map (cell_rows op.now) cells.now)) }
{
    for cell in cells {
        push_cell(alloc, op, width, cell, out)?;
    }
    Ok(())
}

fn push_cell<C: Collector>(
    alloc: Global,
    op: &Op,
    width: u32,
    cell: &TaskCell,
    out: &mut C,
) -> Result<(), NoMemory>
    requires files { ReadsFiles op.now width }
    requires narrow { width ≤ width_limit }
    requires width { C.width out.old ≡ width }
    requires cell { HasWidth width cell.now }
    ensures width { OnOk result (C.width out.new ≡ C.width out.old) }
    ensures kept { OnOk result (C.kept out.new ≡ C.kept out.old) }
    ensures takes { OnOk result (Collects C.holds out.old out.new (cell_rows op.now cell.now)) }
{
    match cell {
        TaskCell::File(bytes) => push_file(alloc, op, width, bytes, out),
        TaskCell::Cell(rows) => push_rows(alloc, &[], rows, out),
    }
}

fn push_file<C: Collector>(
    alloc: Global,
    op: &Op,
    width: u32,
    bytes: &Bytes,
    out: &mut C,
) -> Result<(), NoMemory>
    requires files { ReadsFiles op.now width }
    requires narrow { width ≤ width_limit }
    requires width { C.width out.old ≡ width }
    ensures width { OnOk result (C.width out.new ≡ C.width out.old) }
    ensures kept { OnOk result (C.kept out.new ≡ C.kept out.old) }
    ensures takes { OnOk result (Collects C.holds out.old out.new (file_rows op.now bytes.now)) }
{
    match op {
        Op::Source { columns, .. } => {
            let kinds = kinds_of(alloc, columns.as_slice())?;
            scan_table(alloc, bytes.as_slice(), kinds.as_slice(), &[], out)
        }
        _ => Ok(()),
    }
}

fn kinds_of(alloc: Global, columns: &[Column]) -> Result<Vec<Kind>, NoMemory>
    ensures { IfOk result (λ kinds. kinds.items ≡ map (λ column. column.kind) columns.now) }
{
    columns.iter().map(|column| column.kind).collect(alloc)
}
