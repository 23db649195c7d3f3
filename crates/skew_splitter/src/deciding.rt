ghost use Rattle.std.specs.Prelude.{◌≡◌, ◌<◌, ◌≤◌, ◌^◌, ◌↔◌, IfOk, IfSome, IsTrue, length, map, sum};
ghost use Rattle.join_rewrite.specs.Sides.{side_repeats};
ghost use Rattle.grid_groups.specs.Reads.{ReadGroups};
ghost use Rattle.medians.specs.Medians.{IsMedian};
ghost use Rattle.skew_splitter.specs.Decisions.{AreJoin, AreSides, ShareItems, IsDecided, IsJoinCover, by_items};

use crate::columns::{push_column, side_sizes};
use crate::joining::tidy;
use crate::{Item, Sizes};
use grid_groups::{choose_groups, push_wholes, share_producers};
use medians::median;
use plan_model::{JoinKind, Settings, Side};
use rect_cover::{Assignment, Grid, Grids, Rect, Subtask};
use std::alloc::Global;
use volume_split::{BigSizes, Group, NoMemory};

/// The subtasks of a join over the grids of its left and right side, which have equally many
/// columns, and of its wide inputs. With a side that is repeated the producers of the other side
/// are shared. Without one the columns are, and of skewed columns the pieces, each with all of the
/// other side's column. docs/SEMANTICS.md has the rule.
pub fn decide_join(
    alloc: Global,
    kind: JoinKind,
    side: Option<Side>,
    sizes: &Grids,
    settings: &Settings,
) -> Result<Assignment, NoMemory>
    requires join { AreJoin sizes.now }
    requires repeated { IfSome side (λ side. IsTrue (side_repeats kind side)) }
    ensures decided { IfOk result (IsDecided kind side settings.now sizes.now) }
    ensures cover { IfOk result (IsJoinCover kind sizes.now) }
{
    share_join(alloc, kind, side, sizes, settings)
}

/// Whether the grids are those of a join: two sides with equally many columns and with producers,
/// and then wide inputs.
pub fn are_join(sizes: &Grids) -> bool
    ensures { IsTrue result ↔ AreJoin sizes.now }
{
    match sizes.as_slice() {
        [left, right, ..] => are_sides(left, right),
        _ => false,
    }
}

fn are_sides(left: &Grid, right: &Grid) -> bool
    ensures { IsTrue result ↔ AreSides left.now right.now }
{
    right.cells == left.cells && left.cells > 0 && left.producers > 0 && right.producers > 0
}

// The subtasks by the side that is repeated, if there is one.
fn share_join(
    alloc: Global,
    kind: JoinKind,
    side: Option<Side>,
    sizes: &Grids,
    settings: &Settings,
) -> Result<Assignment, NoMemory>
    requires { AreJoin sizes.now }
    ensures { IfOk result (IsDecided kind side settings.now sizes.now) }
{
    let grids = sizes.as_slice();
    match (grids, side) {
        ([left, rest @ ..], Some(Side::Right)) => {
            share_producers(alloc, settings, &[], left, rest)
        }
        ([_, right, wide @ ..], Some(Side::Left)) => {
            share_producers(alloc, settings, &grids[..1], right, wide)
        }
        ([left, right, wide @ ..], None) => share_items(alloc, kind, settings, left, right, wide),
        _ => Ok(Assignment::from_vec(Vec::new(alloc))),
    }
}

// The subtasks that share the items of a join.
fn share_items(
    alloc: Global,
    kind: JoinKind,
    settings: &Settings,
    left: &Grid,
    right: &Grid,
    wide: &[Grid],
) -> Result<Assignment, NoMemory>
    requires { 0 < left.now.cells }
    ensures { IfOk result (ShareItems kind settings.now left.now right.now wide.now) }
{
    let lefts = side_sizes(alloc, left.cells, left)?;
    let rights = side_sizes(alloc, left.cells, right)?;
    let medians = Sizes {
        left: median(alloc, lefts.as_slice())?,
        right: median(alloc, rights.as_slice())?,
    };
    let mut items = Vec::new(alloc);
    for column in 0..left.cells {
        let sizes = Sizes {
            left: lefts[column as usize],
            right: rights[column as usize],
        };
        push_column(
            alloc, &mut items, kind, settings, medians, sizes, left, right, column,
        )?;
    }
    read_items(alloc, settings, items.as_slice(), wide)
}

fn read_items(
    alloc: Global,
    settings: &Settings,
    items: &[Item],
    wide: &[Grid],
) -> Result<Assignment, NoMemory>
    ensures { IfOk result (ReadGroups settings.now (map (λ item. item.size) items.now)
        (by_items items.now wide.now)) }
{
    let groups = choose_groups(alloc, settings, &item_sizes(alloc, items)?)?;
    let mut subtasks = Vec::new(alloc);
    for group in groups.as_slice() {
        subtasks.push(read_group(alloc, items, wide, *group)?)?;
    }
    Ok(Assignment::from_vec(subtasks))
}

fn item_sizes(alloc: Global, items: &[Item]) -> Result<BigSizes, NoMemory>
    ensures sizes { IfOk result (λ sizes. sizes ≡ map (λ item. item.size) items.now) }
    ensures summable { IfOk result (λ sizes. sum sizes < 2 ^ 128) }
{
    let mut sizes = Vec::with_capacity(alloc, items.len())?;
    for item in items {
        sizes.push(u128::from(item.size))?;
    }
    Ok(BigSizes::from_vec(sizes))
}

fn read_group(
    alloc: Global,
    items: &[Item],
    wide: &[Grid],
    group: Group,
) -> Result<Subtask, NoMemory>
    requires ordered { group.start ≤ group.end }
    requires within { group.end ≤ length items.now }
    ensures { IfOk result (λ reads. reads ≡ by_items items.now wide.now group) }
{
    let own = &items[group.start as usize..group.end as usize];
    let lefts = left_rects(alloc, own)?;
    let rights = right_rects(alloc, own)?;
    let mut inputs = Vec::new(alloc);
    inputs.push(tidy(alloc, lefts.as_slice())?)?;
    inputs.push(tidy(alloc, rights.as_slice())?)?;
    push_wholes(alloc, &mut inputs, wide)?;
    Ok(Subtask::from_vec(inputs))
}

fn left_rects(alloc: Global, items: &[Item]) -> Result<Vec<Rect>, NoMemory>
    ensures { IfOk result (λ rects. rects.items ≡ map (λ item. item.left) items.now) }
{
    items.iter().map(|item| item.left).collect(alloc)
}

fn right_rects(alloc: Global, items: &[Item]) -> Result<Vec<Rect>, NoMemory>
    ensures { IfOk result (λ rects. rects.items ≡ map (λ item. item.right) items.now) }
{
    items.iter().map(|item| item.right).collect(alloc)
}
