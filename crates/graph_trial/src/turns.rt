//! The events of a trial.

use crate::trial::Trial;
use crate::trial_error::TrialError;
use estate::{EdgeSizes, Names, PartName, Sizes};
use event_graph::{EventGraph, Verdict};
use graph_model::{Sub, Subs};
use rect_cover::{Assignment, Rect, Rects, Subtask};
use row_core::NoMemory;
use std::alloc::Global;
use vertex_builder::{NodeList, VertexOutput};

/// Makes, decides and finishes each vertex.
pub fn finish_all(alloc: Global, graph: &mut EventGraph, trial: Trial) -> Result<(), TrialError> {
    graph.opened(1)?;
    for vertex in 0..trial.nodes.saturating_sub(1) {
        graph.made(vertex, &nodes_of(alloc, trial, vertex)?)?;
        graph.decided(vertex, &assignment_of(alloc, trial, vertex)?)?;
        for subtask in 0..trial.subtasks {
            finish(alloc, graph, Sub { vertex, subtask })?;
        }
    }
    wanted(graph.complete())
}

fn wanted(holds: bool) -> Result<(), TrialError> {
    if holds {
        Ok(())
    } else {
        Err(TrialError::Graph)
    }
}

// The last filter's vertex has the sink too.
fn nodes_of(alloc: Global, trial: Trial, vertex: u32) -> Result<NodeList, NoMemory> {
    let mut nodes = Vec::new(alloc);
    nodes.push(vertex)?;
    if vertex.checked_add(2) == Some(trial.nodes) {
        nodes.push(vertex + 1)?;
    }
    Ok(NodeList::from_vec(nodes))
}

// A source's subtask reads a file, and another's a cell of each producer.
fn assignment_of(alloc: Global, trial: Trial, vertex: u32) -> Result<Assignment, NoMemory> {
    let mut subtasks = Vec::new(alloc);
    for subtask in 0..trial.subtasks {
        subtasks.push(reads_of(alloc, trial, vertex, subtask)?)?;
    }
    Ok(Assignment::from_vec(subtasks))
}

fn reads_of(alloc: Global, trial: Trial, vertex: u32, subtask: u32) -> Result<Subtask, NoMemory> {
    let (p0, p1, s0, s1) = if vertex == 0 {
        (subtask, subtask.saturating_add(1), 0, 1)
    } else {
        (0, trial.subtasks, subtask, subtask.saturating_add(1))
    };
    let mut rects = Vec::new(alloc);
    rects.push(Rect { p0, p1, s0, s1 })?;
    let mut inputs = Vec::new(alloc);
    inputs.push(Rects::from_vec(rects))?;
    Ok(Subtask::from_vec(inputs))
}

fn finish(alloc: Global, graph: &mut EventGraph, sub: Sub) -> Result<(), TrialError> {
    if !graph.has(sub) || !graph.is_fed(sub) {
        return Err(TrialError::Graph);
    }
    let inputs = graph.inputs_of(sub)?;
    let sizes = sizes_of(alloc, graph, sub.vertex)?;
    let verdict = graph.finished(part_of(sub), &inputs, &sizes)?;
    wanted(verdict == Verdict::Win)
}

fn part_of(sub: Sub) -> PartName {
    PartName {
        vertex: sub.vertex,
        subtask: sub.subtask,
        epoch: 1,
        attempt: 0,
    }
}

fn sizes_of(alloc: Global, graph: &EventGraph, vertex: u32) -> Result<EdgeSizes, NoMemory> {
    let mut sizes = Vec::new(alloc);
    if let Some(made) = graph.vertices().as_slice().get(vertex as usize) {
        for output in made.vertex.outputs.as_slice() {
            sizes.push(edge_sizes(alloc, output)?)?;
        }
    }
    Ok(EdgeSizes::from_vec(sizes))
}

fn edge_sizes(alloc: Global, output: &VertexOutput) -> Result<Sizes, NoMemory> {
    Ok(Sizes::from_vec(vec![in alloc; 1u64; output.cells as usize]?))
}

/// Loses the parts of all subtasks, each of which runs again then.
pub fn lose_all(alloc: Global, graph: &mut EventGraph, trial: Trial) -> Result<(), TrialError> {
    let subs = all_subs(alloc, trial)?;
    let gone = parts_of(alloc, subs.as_slice())?;
    graph.reset(&Names::from_vec(gone), &Subs::from_vec(subs))?;
    wanted(!graph.complete())
}

/// How many subtasks have a winner.
pub fn count_winners(alloc: Global, graph: &EventGraph, trial: Trial) -> Result<usize, NoMemory> {
    let subs = all_subs(alloc, trial)?;
    Ok(
        subs.iter()
            .filter(|sub| graph.winner(**sub).is_some())
            .count(),
    )
}

fn all_subs(alloc: Global, trial: Trial) -> Result<Vec<Sub>, NoMemory> {
    let mut subs = Vec::new(alloc);
    for vertex in 0..trial.nodes.saturating_sub(1) {
        for subtask in 0..trial.subtasks {
            subs.push(Sub { vertex, subtask })?;
        }
    }
    Ok(subs)
}

fn parts_of(alloc: Global, subs: &[Sub]) -> Result<Vec<PartName>, NoMemory> {
    let mut parts = Vec::with_capacity(alloc, subs.len())?;
    for sub in subs {
        parts.push(part_of(*sub))?;
    }
    Ok(parts)
}
