ghost use Rattle.std.specs.Prelude.{IfOk, IsTrue, ◌↔◌};
ghost use Rattle.graph_model.specs.Closures.{IsClosure};
ghost use Rattle.region_closure.specs.Closing.{AreNumbered, OwnParts};
ghost use Rattle.region_closure.specs.Numbers.{ArePlaced};

use crate::{awaited_numbers, closures_are_one, lost_numbers, picked_subs, reruns_are_the_closure};
use estate::PartName;
use graph_model::{Sub, Subs};
use graph_vertices::MadeVertices;
use reader_index::ReaderIndex;
use rerun_set::reruns;
use row_core::NoMemory;
use std::alloc::Global;

/// The subtasks that run again where these parts are gone, in ascending order. The vertices come
/// with the first number of each one's subtasks, the subtask of each number, and the tasks by
/// number. It costs a look at each name, as much as those that are gone or run again have readers
/// and producers, and a sort of those that run again; no other subtask is looked at.
pub fn closure_of(
    alloc: Global,
    vertices: &MadeVertices,
    places: &[usize],
    subs: &[Sub],
    tasks: &ReaderIndex,
    gone: &[PartName],
) -> Result<Subs, NoMemory>
    requires numbered { AreNumbered vertices.now subs.now tasks.now }
    requires placed { ArePlaced vertices.now places.now subs.now }
    requires own { OwnParts vertices.now }
    ensures { IfOk result (λ set. IsClosure vertices.now gone.now set) }
{
    reruns_are_the_closure();
    let lost = lost_numbers(alloc, vertices, places, subs, gone)?;
    let awaited = awaited_numbers(alloc, vertices, subs, lost.as_slice())?;
    let again = reruns(alloc, tasks, lost.as_slice(), awaited.as_slice())?;
    picked_subs(alloc, subs, again.as_slice())
}

/// Whether these are the subtasks that run again, in ascending order and each once.
pub fn is_closure(
    alloc: Global,
    vertices: &MadeVertices,
    places: &[usize],
    subs: &[Sub],
    tasks: &ReaderIndex,
    gone: &[PartName],
    set: &[Sub],
) -> Result<bool, NoMemory>
    requires numbered { AreNumbered vertices.now subs.now tasks.now }
    requires placed { ArePlaced vertices.now places.now subs.now }
    requires own { OwnParts vertices.now }
    ensures { IfOk result (λ is. IsTrue is ↔ IsClosure vertices.now gone.now set.now) }
{
    closures_are_one();
    let closure = closure_of(alloc, vertices, places, subs, tasks, gone)?;
    Ok(closure.as_slice() == set)
}
