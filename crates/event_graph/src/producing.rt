ghost use Rattle.std.specs.Prelude.{◌≡◌, ◌+◌, ◌<◌, ◌≤◌, ◌++◌, ◌∷◌, ℕ, [], false, fold, map, max, min, if◌then◌else◌, IfOk, OnOk};
ghost use Rattle.event_graph.specs.Numbers.{input_numbers, inputs_numbers, node_numbers};
ghost use Rattle.graph_model.specs.Reads.{touched, touches_producer};

use crate::Numbers;
use graph_vertices::MadeVertices;
use reader_index::Producers;
use rect_cover::{Assignment, Rect, Subtask};
use row_core::NoMemory;
use std::alloc::{AllocError, Global};
use vertex_builder::VertexInput;

/// The numbers of the producers that each subtask of a decision reads from.
pub fn producers_of(
    alloc: Global,
    vertices: &MadeVertices,
    numbers: &Numbers,
    inputs: &[VertexInput],
    assignment: &Assignment,
) -> Result<Vec<Producers>, NoMemory>
    ensures { IfOk result (λ lists. lists.items
        ≡ map (λ reads. inputs_numbers numbers.now vertices.now inputs.now 0 reads)
        assignment.now) }
{
    let mut lists = Vec::with_capacity(alloc, assignment.as_slice().len())?;
    for reads in assignment.as_slice() {
        lists.push(read_by(alloc, vertices, numbers, inputs, reads)?)?;
    }
    Ok(lists)
}

fn read_by(
    alloc: Global,
    vertices: &MadeVertices,
    numbers: &Numbers,
    inputs: &[VertexInput],
    reads: &Subtask,
) -> Result<Producers, NoMemory>
    ensures { IfOk result (λ list. list
        ≡ inputs_numbers numbers.now vertices.now inputs.now 0 reads.now) }
{
    let mut list = Vec::new(alloc);
    for place in 0..inputs.len() {
        let rects = reads.rects(place);
        push_input(vertices, numbers, &inputs[place], rects, &mut list)?;
    }
    Ok(Producers::from_vec(list))
}

fn push_input(
    vertices: &MadeVertices,
    numbers: &Numbers,
    input: &VertexInput,
    rects: &[Rect],
    list: &mut Vec<usize>,
) -> Result<(), NoMemory>
    ensures { OnOk result (list.new.items
        ≡ list.old.items ++ input_numbers numbers.now vertices.now input.now rects.now) }
{
    match input.from {
        Some(node) => push_node(vertices, numbers, node, rects, list),
        None => Ok(()),
    }
}

// Those of the vertex that has the node.
fn push_node(
    vertices: &MadeVertices,
    numbers: &Numbers,
    node: u32,
    rects: &[Rect],
    list: &mut Vec<usize>,
) -> Result<(), NoMemory>
    ensures { OnOk result (list.new.items
        ≡ list.old.items ++ node_numbers numbers.now vertices.now rects.now node) }
{
    let vertex = vertices.maker(node);
    let first = numbers.place(vertex);
    let count = vertices.parallelism(vertex);
    push_touched(first, count, rects, list)
}

// The numbers of the producers that the rects touch, of so many from this number on.
fn push_touched(
    first: usize,
    count: u32,
    rects: &[Rect],
    list: &mut Vec<usize>,
) -> Result<(), NoMemory>
    ensures { OnOk result (list.new.items
        ≡ list.old.items ++ map (λ p. first + p) (touched rects.now count)) }
{
    for producer in least_producer(rects, count)..producers_end(rects, count) {
        push_if(touches(rects, producer), first, producer, list)?;
    }
    Ok(())
}

// The least producer that the rects touch, or a lower one.
fn least_producer(rects: &[Rect], count: u32) -> u32
    ensures within { result ≤ count }
    ensures none { (p : ℕ) → p < result → touches_producer rects.now p ≡ false }
{
    least_start(rects, count)
}

fn least_start(rects: &[Rect], count: u32) -> u32
    ensures { result ≡ fold (λ least rect. min least rect.p0) count rects.now }
{
    let mut least = count;
    for rect in rects {
        least = least.min(rect.p0);
    }
    least
}

// The end of the producers that the rects touch, of so many.
fn producers_end(rects: &[Rect], count: u32) -> u32
    ensures within { result ≤ count }
    ensures none { (p : ℕ) → result ≤ p → p < count → touches_producer rects.now p ≡ false }
{
    greatest_end(rects).min(count)
}

fn greatest_end(rects: &[Rect]) -> u32
    ensures { result ≡ fold (λ end rect. max end rect.p1) 0 rects.now }
{
    let mut end = 0;
    for rect in rects {
        end = end.max(rect.p1);
    }
    end
}

fn push_if(wanted: bool, first: usize, producer: u32, list: &mut Vec<usize>) -> Result<(), NoMemory>
    ensures { OnOk result (list.new.items
        ≡ list.old.items ++ (if wanted then (first + producer) ∷ [] else [])) }
{
    if wanted {
        let Some(number) = first.checked_add(producer as usize) else {
            return Err(AllocError);
        };
        list.push(number)?;
    }
    Ok(())
}

// Whether one of the rects has cells of the producer.
fn touches(rects: &[Rect], producer: u32) -> bool
    ensures { result ≡ touches_producer rects.now producer }
{
    rects
        .iter()
        .any(|rect| rect.p0 <= producer && producer < rect.p1)
}
