ghost use Rattle.std.specs.Prelude.{◌≡◌, ◌<◌, ◌^◌, ◌++◌, IfOk, OnOk, map, sum};
ghost use Rattle.grid_groups.specs.Reads.{if_filled, whole_of, by_producers, by_columns, columns_in, columns_of, IsGrouped, ShareProducers, ShareColumns};

use crate::sizes::{column_sizes, producer_sizes};
use plan_model::Settings;
use rect_cover::{Assignment, Grid, Rect, Rects, Subtask};
use std::alloc::Global;
use volume_split::{BigSizes, Group, Groups, NoMemory, choose};

/// The subtasks that share the producers of one input by their sizes, and read the inputs before
/// and after it whole. Without producers there is one subtask, which reads none.
pub fn share_producers(
    alloc: Global,
    settings: &Settings,
    before: &[Grid],
    grid: &Grid,
    after: &[Grid],
) -> Result<Assignment, NoMemory>
    ensures { IfOk result (ShareProducers settings.now before.now grid.now after.now) }
{
    let groups = choose_groups(alloc, settings, &producer_sizes(alloc, grid)?)?;
    let mut subtasks = Vec::new(alloc);
    for group in groups.as_slice() {
        subtasks.push(read_producers(alloc, before, grid, after, *group)?)?;
    }
    Ok(Assignment::from_vec(subtasks))
}

/// The subtasks that share the columns of the first inputs, which have equally many, by their
/// sizes, and read the wide inputs whole.
pub fn share_columns(
    alloc: Global,
    settings: &Settings,
    heads: &[Grid],
    wide: &[Grid],
) -> Result<Assignment, NoMemory>
    ensures { IfOk result (ShareColumns settings.now heads.now wide.now) }
{
    let columns = columns_in(heads);
    let groups = choose_groups(alloc, settings, &column_sizes(alloc, columns, heads)?)?;
    let mut subtasks = Vec::new(alloc);
    for group in groups.as_slice() {
        subtasks.push(read_columns(alloc, heads, wide, *group)?)?;
    }
    Ok(Assignment::from_vec(subtasks))
}

/// The columns of inputs that have equally many.
pub fn columns_in(heads: &[Grid]) -> u32
    ensures { result ≡ columns_in heads.now }
{
    match heads {
        [grid, ..] => grid.cells,
        [] => 0,
    }
}

/// Groups of items by their sizes, as many as the settings say.
pub fn choose_groups(
    alloc: Global,
    settings: &Settings,
    sizes: &BigSizes,
) -> Result<Groups, NoMemory>
    requires { sum sizes.now < 2 ^ 128 }
    ensures { IfOk result (IsGrouped settings.now sizes.now) }
{
    choose(
        alloc,
        u128::from(settings.target_bytes()),
        settings.min_parallelism(),
        settings.max_parallelism(),
        sizes,
    )
}

// The group's producers of one input, and the others whole.
fn read_producers(
    alloc: Global,
    before: &[Grid],
    grid: &Grid,
    after: &[Grid],
    group: Group,
) -> Result<Subtask, NoMemory>
    requires start { group.start < 2 ^ 32 }
    requires end { group.end < 2 ^ 32 }
    ensures { IfOk result
        (λ reads. reads ≡ by_producers before.now grid.now after.now group) }
{
    let rect = Rect {
        p0: group.start as u32,
        p1: group.end as u32,
        s0: 0,
        s1: grid.cells,
    };
    let mut inputs = Vec::new(alloc);
    push_wholes(alloc, &mut inputs, before)?;
    inputs.push(if_filled(alloc, rect)?)?;
    push_wholes(alloc, &mut inputs, after)?;
    Ok(Subtask::from_vec(inputs))
}

// The group's columns of the first inputs, and the wide ones whole.
fn read_columns(
    alloc: Global,
    heads: &[Grid],
    wide: &[Grid],
    group: Group,
) -> Result<Subtask, NoMemory>
    requires start { group.start < 2 ^ 32 }
    requires end { group.end < 2 ^ 32 }
    ensures { IfOk result (λ reads. reads ≡ by_columns heads.now wide.now group) }
{
    let mut inputs = Vec::new(alloc);
    for grid in heads {
        inputs.push(columns_of(alloc, grid, group)?)?;
    }
    push_wholes(alloc, &mut inputs, wide)?;
    Ok(Subtask::from_vec(inputs))
}

fn columns_of(alloc: Global, grid: &Grid, group: Group) -> Result<Rects, NoMemory>
    requires start { group.start < 2 ^ 32 }
    requires end { group.end < 2 ^ 32 }
    ensures { IfOk result (λ rects. rects ≡ columns_of grid.now group) }
{
    let rect = Rect {
        p0: 0,
        p1: grid.producers,
        s0: group.start as u32,
        s1: group.end as u32,
    };
    if_filled(alloc, rect)
}

/// Adds all cells of each of these inputs to what a subtask reads.
pub fn push_wholes(alloc: Global, inputs: &mut Vec<Rects>, grids: &[Grid]) -> Result<(), NoMemory>
    ensures { OnOk result (inputs.new.items ≡ inputs.old.items ++ map whole_of grids.now) }
{
    for grid in grids {
        inputs.push(whole_of(alloc, grid)?)?;
    }
    Ok(())
}

fn whole_of(alloc: Global, grid: &Grid) -> Result<Rects, NoMemory>
    ensures { IfOk result (λ rects. rects ≡ whole_of grid.now) }
{
    let rect = Rect {
        p0: 0,
        p1: grid.producers,
        s0: 0,
        s1: grid.cells,
    };
    if_filled(alloc, rect)
}

fn if_filled(alloc: Global, rect: Rect) -> Result<Rects, NoMemory>
    ensures { IfOk result (λ rects. rects ≡ if_filled rect) }
{
    let mut rects = Vec::new(alloc);
    if rect.p0 < rect.p1 && rect.s0 < rect.s1 {
        rects.push(rect)?;
    }
    Ok(Rects::from_vec(rects))
}
