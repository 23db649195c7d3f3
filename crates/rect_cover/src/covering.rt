ghost use Rattle.std.specs.Prelude.{◌≡◌, ◌^◌, ◌<◌, ◌↔◌, ◌++◌, length, drop, IsTrue, All};
ghost use Rattle.std.specs.List.{AllZip};
ghost use Rattle.rect_cover.specs.Covers.{IsInput, HasWhole, Demand, IsCover};

use crate::all_subtasks::{by_columns, heads_once, is_driven};
use crate::both_sides::{each_pair, same_columns};
use crate::one_input::{are_inputs, are_whole};
use crate::{Assignment, Grid, Rects, Shape, ShapeKind, Subtask};

/// Whether the assignment is a cover of the shape; docs/SEMANTICS.md says which are.
pub fn covers(shape: &Shape, assignment: &Assignment) -> bool
    ensures { IsTrue result ↔ IsCover shape.now assignment.now }
{
    let subtasks = assignment.as_slice();
    let heads = shape.heads.as_slice();
    if subtasks.is_empty() || subtasks.len() > u32::MAX as usize {
        return false;
    }
    all_formed(heads, shape.wide.as_slice(), subtasks)
        && meets_demand(shape.kind, heads, shape.wide.as_slice(), subtasks)
}

// Whether the inputs are those of the heads and then the wide ones, these whole.
fn is_formed(heads: &[Grid], wide: &[Grid], inputs: &[Rects]) -> bool
    ensures { IsTrue result ↔ (AllZip IsInput (heads.now ++ wide.now) inputs.now
        × AllZip HasWhole wide.now (drop (length heads.now) inputs.now)) }
{
    if inputs.len() < heads.len() {
        return false;
    }
    let (first, rest) = inputs.split_at(heads.len());
    are_inputs(heads, first) && are_wide(wide, rest)
}

fn are_wide(grids: &[Grid], inputs: &[Rects]) -> bool
    ensures { IsTrue result
        ↔ (AllZip IsInput grids.now inputs.now × AllZip HasWhole grids.now inputs.now) }
{
    are_inputs(grids, inputs) && are_whole(grids, inputs)
}

fn all_formed(heads: &[Grid], wide: &[Grid], subtasks: &[Subtask]) -> bool
    ensures { IsTrue result ↔ (All (AllZip IsInput (heads.now ++ wide.now)) subtasks.now
        × All (λ subtask. AllZip HasWhole wide.now (drop (length heads.now) subtask))
        subtasks.now) }
{
    subtasks
        .iter()
        .all(|subtask| is_formed(heads, wide, subtask.as_slice()))
}

fn meets_demand(kind: ShapeKind, heads: &[Grid], wide: &[Grid], subtasks: &[Subtask]) -> bool
    requires { All (AllZip IsInput (heads.now ++ wide.now)) subtasks.now }
    ensures { IsTrue result ↔ Demand kind heads.now subtasks.now }
{
    match (kind, heads) {
        (ShapeKind::RowWise, _) => heads_once(subtasks, heads),
        (ShapeKind::Keyed, [grid]) => by_columns(subtasks, 0, grid),
        (ShapeKind::LeftDriven, [left, right]) => is_driven(subtasks, left, 0, right, 1),
        (ShapeKind::RightDriven, [left, right]) => is_driven(subtasks, right, 1, left, 0),
        (ShapeKind::Inner, [left, right]) => each_pair(subtasks, left, 0, right, 1),
        (ShapeKind::Full, [left, right]) => same_columns(subtasks, left, 0, right, 1),
        _ => false,
    }
}
