//! A skewed column, cut in three: which kinds it covers.

use rect_cover::{
    Assignment, CellSizes, Grid, Grids, Rect, Rects, Shape, ShapeKind, Subtask, covers,
};
use row_core::NoMemory;
use std::alloc::Global;
use std::test::Fail;

// The producers from and to, and the cells from and to.
type Area = (u32, u32, u32, u32);

// What each subtask reads of the left and of the right side: column 1 of the left is cut in three,
// and its right cell goes along each time.
const SKEWED: &[(&[Area], &[Area])] = &[
    (&[(0, 3, 0, 1), (0, 1, 1, 2)], &[(0, 1, 0, 2)]),
    (&[(1, 2, 1, 2)], &[(0, 1, 1, 2)]),
    (&[(2, 3, 1, 2), (0, 3, 2, 3)], &[(0, 1, 1, 3)]),
];

const KINDS: &[(ShapeKind, bool)] = &[
    (ShapeKind::LeftDriven, true),
    (ShapeKind::Inner, true),
    (ShapeKind::RightDriven, false),
    (ShapeKind::Full, false),
];

fn rects(alloc: Global, areas: &[Area]) -> Result<Rects, NoMemory> {
    let mut made = Vec::new(alloc);
    for (p0, p1, s0, s1) in areas {
        made.push(Rect {
            p0: *p0,
            p1: *p1,
            s0: *s0,
            s1: *s1,
        })?;
    }
    Ok(Rects::from_vec(made))
}

// A subtask of two inputs.
fn subtask(alloc: Global, left: &[Area], right: &[Area]) -> Result<Subtask, NoMemory> {
    let mut inputs = Vec::new(alloc);
    inputs.push(rects(alloc, left)?)?;
    inputs.push(rects(alloc, right)?)?;
    Ok(Subtask::from_vec(inputs))
}

fn skewed(alloc: Global) -> Result<Assignment, NoMemory> {
    let mut subtasks = Vec::new(alloc);
    for (left, right) in SKEWED {
        subtasks.push(subtask(alloc, left, right)?)?;
    }
    Ok(Assignment::from_vec(subtasks))
}

fn grids(alloc: Global, sizes: &[(u32, u32)]) -> Result<Grids, NoMemory> {
    let mut made = Vec::new(alloc);
    for (producers, cells) in sizes {
        made.push(Grid {
            producers: *producers,
            cells: *cells,
            sizes: CellSizes::from_vec(Vec::new(alloc)),
        })?;
    }
    Ok(Grids::from_vec(made))
}

fn shape(alloc: Global, kind: ShapeKind) -> Result<Shape, NoMemory> {
    Ok(Shape {
        kind,
        heads: grids(alloc, &[(3, 3), (1, 3)])?,
        wide: grids(alloc, &[])?,
    })
}

#[test]
fn a_skewed_column_may_be_cut_on_the_side_that_drives(rt: HostRuntime) -> Result<(), Fail> {
    let assignment = skewed(rt.alloc())?;
    for (kind, is_cover) in KINDS {
        let shape = shape(rt.alloc(), *kind)?;
        assert_eq!(rt; covers(&shape, &assignment), *is_cover);
    }
    Ok(())
}
