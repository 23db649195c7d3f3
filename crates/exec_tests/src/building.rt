//! Parts, assignments and sizes, made of numbers.

use estate::{EdgeSizes, Names, PartName, Sizes};
use exec_graph::{Sub, Subs};
use rect_cover::{Assignment, Rect, Rects, Subtask};
use row_core::NoMemory;
use std::alloc::Global;

/// A part by its vertex, subtask, epoch and attempt.
pub type Part = (u32, u32, u32, u32);

/// A rect by its producers and its cells, ends not included.
pub type Cells = (u32, u32, u32, u32);

pub fn part(name: Part) -> PartName {
    PartName {
        vertex: name.0,
        subtask: name.1,
        epoch: name.2,
        attempt: name.3,
    }
}

pub fn names(alloc: Global, parts: &[Part]) -> Result<Names, NoMemory> {
    let mut names = Vec::new(alloc);
    for name in parts {
        names.push(part(*name))?;
    }
    Ok(Names::from_vec(names))
}

pub fn edge_sizes(alloc: Global, edges: &[&[u64]]) -> Result<EdgeSizes, NoMemory> {
    let mut sizes = Vec::new(alloc);
    for edge in edges {
        sizes.push(Sizes::from_vec(edge.to_vec(alloc)?))?;
    }
    Ok(EdgeSizes::from_vec(sizes))
}

pub fn subs(alloc: Global, list: &[(u32, u32)]) -> Result<Subs, NoMemory> {
    let mut subs = Vec::new(alloc);
    for (vertex, subtask) in list {
        subs.push(Sub {
            vertex: *vertex,
            subtask: *subtask,
        })?;
    }
    Ok(Subs::from_vec(subs))
}

fn rects(alloc: Global, list: &[Cells]) -> Result<Rects, NoMemory> {
    let mut rects = Vec::new(alloc);
    for (p0, p1, s0, s1) in list {
        rects.push(Rect {
            p0: *p0,
            p1: *p1,
            s0: *s0,
            s1: *s1,
        })?;
    }
    Ok(Rects::from_vec(rects))
}

fn subtask(alloc: Global, inputs: &[&[Cells]]) -> Result<Subtask, NoMemory> {
    let mut reads = Vec::new(alloc);
    for input in inputs {
        reads.push(rects(alloc, input)?)?;
    }
    Ok(Subtask::from_vec(reads))
}

/// The rects of each input of each subtask.
pub fn assignment(alloc: Global, subtasks: &[&[&[Cells]]]) -> Result<Assignment, NoMemory> {
    let mut made = Vec::new(alloc);
    for inputs in subtasks {
        made.push(subtask(alloc, inputs)?)?;
    }
    Ok(Assignment::from_vec(made))
}
