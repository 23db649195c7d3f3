//! Grids in short, and assignments as texts.

use rect_cover::{Assignment, CellSizes, Grid, Grids, Rects};
use std::alloc::{AllocError, Global};

/// So many producers and columns, and the sizes of the cells, producer by producer.
pub type Cells = (u32, u32, &'static [u64]);

/// The grids of these inputs.
pub fn grids(alloc: Global, inputs: &[Cells]) -> Result<Grids, AllocError> {
    let mut grids = Vec::new(alloc);
    for (producers, cells, sizes) in inputs {
        grids.push(Grid {
            producers: *producers,
            cells: *cells,
            sizes: CellSizes::from_vec(sizes.to_vec(alloc)?),
        })?;
    }
    Ok(Grids::from_vec(grids))
}

fn push_rects(text: &mut String, rects: &Rects) -> Result<(), AllocError> {
    text.push_str("[")?;
    for rect in rects.as_slice() {
        write!(text, "({},{},{},{})", rect.p0, rect.p1, rect.s0, rect.s1)?;
    }
    text.push_str("]")
}

/// The subtasks, a line each: the rects of each input.
pub fn shown(alloc: Global, assignment: &Assignment) -> Result<String, AllocError> {
    let mut text = String::new(alloc);
    for subtask in assignment.as_slice() {
        for rects in subtask.as_slice() {
            push_rects(&mut text, rects)?;
        }
        text.push_str("\n")?;
    }
    Ok(text)
}
