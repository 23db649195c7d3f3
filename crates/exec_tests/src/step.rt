//! Events in short, and a graph to which they are applied.

ghost use Rattle.std.specs.Prelude.{◌≡◌};

use crate::answer::{Answer, answered, judged};
use crate::building::{Cells, Part, assignment, edge_sizes, names, part, subs};
use exec_graph::{Cause, Graph};
use plan_model::Side;
use row_core::NoMemory;
use std::alloc::Global;
use vertex_builder::NodeList;

/// An event in short. A decision has the rects of each input of each subtask.
#[derive(Clone, Copy)]
pub enum Step {
    Opened(u32),
    Made(u32, &'static [u32]),
    Widened(u32, Side),
    Decided(u32, &'static [&'static [&'static [Cells]]]),
    Done(Part, &'static [Part], &'static [&'static [u64]]),
    Gate(Part),
    Lost(Part),
    Reset(&'static [Part], &'static [(u32, u32)]),
    Ended(bool),
}

/// What the graph answers to the event.
pub fn apply(alloc: Global, graph: &mut Graph, step: Step) -> Result<Answer, NoMemory>
    ensures { graph.new.attempts ≡ graph.old.attempts }
{
    match step {
        Step::Opened(epoch) => opened(graph, epoch),
        Step::Made(vertex, nodes) => made(alloc, graph, vertex, nodes),
        Step::Widened(node, side) => widened(graph, node, side),
        Step::Decided(vertex, subtasks) => decided(alloc, graph, vertex, subtasks),
        Step::Done(name, inputs, sizes) => done(alloc, graph, name, inputs, sizes),
        Step::Gate(name) => gate(graph, name),
        Step::Lost(name) => lost(graph, name),
        Step::Reset(gone, again) => reset(alloc, graph, gone, again),
        Step::Ended(failed) => ended(graph, failed),
    }
}

fn opened(graph: &mut Graph, epoch: u32) -> Result<Answer, NoMemory>
    ensures { graph.new.attempts ≡ graph.old.attempts }
{
    answered(graph.opened(epoch))
}

fn made(alloc: Global, graph: &mut Graph, vertex: u32, nodes: &[u32]) -> Result<Answer, NoMemory>
    ensures { graph.new.attempts ≡ graph.old.attempts }
{
    let nodes = NodeList::from_vec(nodes.to_vec(alloc)?);
    answered(graph.made(vertex, &nodes))
}

fn widened(graph: &mut Graph, node: u32, side: Side) -> Result<Answer, NoMemory>
    ensures { graph.new.attempts ≡ graph.old.attempts }
{
    answered(graph.widened(node, side))
}

fn decided(
    alloc: Global,
    graph: &mut Graph,
    vertex: u32,
    subtasks: &[&[&[Cells]]],
) -> Result<Answer, NoMemory>
    ensures { graph.new.attempts ≡ graph.old.attempts }
{
    let decision = assignment(alloc, subtasks)?;
    answered(graph.decided(vertex, &decision))
}

fn done(
    alloc: Global,
    graph: &mut Graph,
    name: Part,
    inputs: &[Part],
    sizes: &[&[u64]],
) -> Result<Answer, NoMemory>
    ensures { graph.new.attempts ≡ graph.old.attempts }
{
    let inputs = names(alloc, inputs)?;
    let sizes = edge_sizes(alloc, sizes)?;
    judged(graph.finished(part(name), &inputs, &sizes))
}

fn gate(graph: &mut Graph, name: Part) -> Result<Answer, NoMemory>
    ensures { graph.new.attempts ≡ graph.old.attempts }
{
    let name = part(name);
    answered(graph.troubled(&Cause::Gate { name, code: 7 }))
}

fn lost(graph: &mut Graph, name: Part) -> Result<Answer, NoMemory>
    ensures { graph.new.attempts ≡ graph.old.attempts }
{
    answered(graph.troubled(&Cause::Lost { name: part(name) }))
}

fn reset(
    alloc: Global,
    graph: &mut Graph,
    gone: &[Part],
    again: &[(u32, u32)],
) -> Result<Answer, NoMemory>
    ensures { graph.new.attempts ≡ graph.old.attempts }
{
    let gone = names(alloc, gone)?;
    let again = subs(alloc, again)?;
    answered(graph.reset(&gone, &again))
}

fn ended(graph: &mut Graph, failed: bool) -> Result<Answer, NoMemory>
    ensures { graph.new.attempts ≡ graph.old.attempts }
{
    answered(graph.ended(failed))
}

/// How many events are taken before the first that isn't, and what that one is answered.
pub fn apply_all(
    alloc: Global,
    graph: &mut Graph,
    steps: &[Step],
) -> Result<(usize, Answer), NoMemory> {
    for place in 0..steps.len() {
        let answer = apply(alloc, graph, steps[place])?;
        if answer != Answer::Taken {
            return Ok((place, answer));
        }
    }
    Ok((steps.len(), Answer::Taken))
}
