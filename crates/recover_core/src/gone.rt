ghost use Rattle.std.specs.Prelude.{◌≡◌, ◌<◌, ◌+◌, length, IfOk, OnOk};
ghost use Rattle.core_model.specs.Moves.{AreGone};
ghost use Rattle.event_graph.specs.Numbers.{IsNumbering};
ghost use Rattle.recover_core.specs.Gone.{AddsGone, AreHeld, AreOwn, GoneBefore, IsDecidedSub, Notes};

use estate::{Names, PartName};
use event_graph::Numbers;
use exec_graph::Graph;
use graph_model::Sub;
use graph_vertices::MadeVertices;
use row_core::NoMemory;
use std::alloc::Global;

/// The parts of the present winners that are not among these names, in ascending order. It costs a
/// look at each subtask that is decided and at each name.
pub fn gone_winners(alloc: Global, graph: &Graph, names: &Names) -> Result<Names, NoMemory>
    ensures { IfOk result (λ gone. AreGone graph.now.job.state.vertices names.now gone) }
{
    let job = graph.job();
    job.is_kept();
    let vertices = job.vertices();
    let numbers = job.numbers();
    let held = held_marks(alloc, vertices, numbers, names.as_slice())?;
    let mut gone = Vec::new(alloc);
    for vertex in 0..vertices.as_slice().len() {
        gather(&mut gone, vertices, numbers, held.as_slice(), vertex)?;
    }
    Ok(Names::from_vec(gone))
}

// Marks, by number, the subtasks whose winner's part is among the names.
fn held_marks(
    alloc: Global,
    vertices: &MadeVertices,
    numbers: &Numbers,
    names: &[PartName],
) -> Result<Vec<bool>, NoMemory>
    requires own { AreOwn vertices.now }
    requires numbered { IsNumbering vertices.now numbers.now }
    ensures { IfOk result (λ marks. AreHeld vertices.now numbers.now names.now marks.items) }
{
    let mut marks = vec![in alloc; false; numbers.subs().len()]?;
    for place in 0..names.len() {
        note_held(&mut marks, vertices, numbers, names[place]);
    }
    Ok(marks)
}

// Marks the subtask of a name, if it is a present winner's part.
fn note_held(marks: &mut Vec<bool>, vertices: &MadeVertices, numbers: &Numbers, name: PartName)
    requires own { AreOwn vertices.now }
    requires numbered { IsNumbering vertices.now numbers.now }
    requires len { length marks.old.items ≡ length numbers.now.subs }
    ensures { Notes vertices.now numbers.now name marks.old.items marks.new.items }
{
    if vertices.is_present(name) {
        let number = numbers.number(Sub::of(name));
        marks[number] = true;
    }
}

// Adds the winners' parts of a vertex whose subtasks are not marked.
fn gather(
    gone: &mut Vec<PartName>,
    vertices: &MadeVertices,
    numbers: &Numbers,
    held: &[bool],
    vertex: usize,
) -> Result<(), NoMemory>
    requires own { AreOwn vertices.now }
    requires numbered { IsNumbering vertices.now numbers.now }
    requires len { length held.now ≡ length numbers.now.subs }
    requires before { GoneBefore vertices.now numbers.now held.now
        (record { vertex = vertex; subtask = 0 }) gone.old.items }
    ensures { OnOk result (GoneBefore vertices.now numbers.now held.now
        (record { vertex = vertex + 1; subtask = 0 }) gone.new.items) }
{
    for subtask in 0..vertices.parallelism(vertex) {
        let sub = Sub {
            vertex: vertex as u32,
            subtask,
        };
        note_gone(gone, vertices, numbers, held, sub)?;
    }
    Ok(())
}

// Adds the part of a subtask's winner, unless it is marked.
fn note_gone(
    gone: &mut Vec<PartName>,
    vertices: &MadeVertices,
    numbers: &Numbers,
    held: &[bool],
    sub: Sub,
) -> Result<(), NoMemory>
    requires decided { IsDecidedSub vertices.now sub }
    requires numbered { IsNumbering vertices.now numbers.now }
    requires len { length held.now ≡ length numbers.now.subs }
    ensures { OnOk result
        (AddsGone vertices.now numbers.now held.now sub gone.old.items gone.new.items) }
{
    match vertices.winner(sub) {
        Some(name) => {
            if !held[numbers.number(sub)] {
                gone.push(name)?;
            }
        }
        None => {}
    }
    Ok(())
}
