ghost use Rattle.std.specs.Prelude.{◌≡◌, ◌<◌, ◌^◌, ◌++◌, ◌∷◌, [], IfOk, length, map, take};
ghost use Rattle.graph_model.specs.States.{unwon};

use estate::{EdgeSizes, Names, Sizes};
use graph_model::{FileSizes, SubtaskState, SubtaskStates};
use rect_cover::{Assignment, Rects, Subtask};
use row_core::NoMemory;
use std::alloc::Global;

pub fn copied_names(alloc: Global, names: &Names) -> Result<Names, NoMemory>
    ensures { IfOk result (λ copied. copied ≡ names.now) }
{
    Ok(Names::from_vec(Vec::from_slice(alloc, names.as_slice())?))
}

pub fn copied_sizes(alloc: Global, sizes: &EdgeSizes) -> Result<EdgeSizes, NoMemory>
    ensures { IfOk result (λ copied. copied ≡ sizes.now) }
{
    let mut copied = Vec::new(alloc);
    for edge in sizes.as_slice() {
        copied.push(copied_edge(alloc, edge)?)?;
    }
    Ok(EdgeSizes::from_vec(copied))
}

pub fn copied_files(alloc: Global, files: &FileSizes) -> Result<FileSizes, NoMemory>
    ensures { IfOk result (λ copied. copied ≡ files.now) }
{
    let mut copied = Vec::new(alloc);
    for table in files.as_slice() {
        copied.push(copied_edge(alloc, table)?)?;
    }
    Ok(FileSizes::from_vec(copied))
}

fn copied_edge(alloc: Global, edge: &Sizes) -> Result<Sizes, NoMemory>
    ensures { IfOk result (λ copied. copied ≡ edge.now) }
{
    Ok(Sizes::from_vec(Vec::from_slice(alloc, edge.as_slice())?))
}

/// The subtasks of a decision, none of which has a winner.
pub fn unwon_subtasks(alloc: Global, assignment: &Assignment) -> Result<SubtaskStates, NoMemory>
    requires { length assignment.now < 2 ^ 32 }
    ensures { IfOk result (λ subtasks. subtasks ≡ map unwon assignment.now) }
{
    let mut subtasks = Vec::with_capacity(alloc, assignment.as_slice().len())?;
    for reads in assignment.as_slice() {
        subtasks.push(SubtaskState {
            reads: copied_reads(alloc, reads)?,
            winner: None,
        })?;
    }
    Ok(SubtaskStates::from_vec(subtasks))
}

fn copied_reads(alloc: Global, reads: &Subtask) -> Result<Subtask, NoMemory>
    ensures { IfOk result (λ copied. copied ≡ reads.now) }
{
    let mut inputs = Vec::with_capacity(alloc, reads.as_slice().len())?;
    for rects in reads.as_slice() {
        inputs.push(copied_rects(alloc, rects)?)?;
    }
    Ok(Subtask::from_vec(inputs))
}

fn copied_rects(alloc: Global, rects: &Rects) -> Result<Rects, NoMemory>
    ensures { IfOk result (λ copied. copied ≡ rects.now) }
{
    Ok(Rects::from_vec(Vec::from_slice(alloc, rects.as_slice())?))
}
