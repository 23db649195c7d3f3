ghost use Rattle.std.specs.Prelude.{◌<◌, IfOk, OnOk, length};
ghost use Rattle.graph_model.specs.States.{sub_of};
ghost use Rattle.graph_vertices.specs.Winning.{IsPresent};
ghost use Rattle.region_closure.specs.Closing.{AreGone, OwnParts};
ghost use Rattle.region_closure.specs.Numbers.{ArePlaced, Notes, number_of};

use estate::PartName;
use graph_model::Sub;
use graph_vertices::MadeVertices;
use row_core::NoMemory;
use std::alloc::Global;

/// The numbers of the subtasks whose winner's part is among those that are gone.
pub fn lost_numbers(
    alloc: Global,
    vertices: &MadeVertices,
    places: &[usize],
    subs: &[Sub],
    gone: &[PartName],
) -> Result<Vec<usize>, NoMemory>
    requires placed { ArePlaced vertices.now places.now subs.now }
    requires own { OwnParts vertices.now }
    ensures { IfOk result (λ lost. AreGone vertices.now gone.now subs.now lost.items) }
{
    let mut lost = Vec::new(alloc);
    for place in 0..gone.len() {
        note_lost(&mut lost, vertices, places, subs, gone[place])?;
    }
    Ok(lost)
}

// Adds the number of a part's subtask, if the part is a present winner's.
fn note_lost(
    lost: &mut Vec<usize>,
    vertices: &MadeVertices,
    places: &[usize],
    subs: &[Sub],
    name: PartName,
) -> Result<(), NoMemory>
    requires placed { IsPresent vertices.now name → name.vertex < length places.now }
    requires numbered { IsPresent vertices.now name
        → number_of places.now (sub_of name) < length subs.now }
    ensures { OnOk result (Notes vertices.now places.now name lost.old.items lost.new.items) }
{
    if !vertices.is_present(name) {
        return Ok(());
    }
    let _count = subs.len();
    let number = places[name.vertex as usize] + name.subtask as usize;
    lost.push(number)?;
    Ok(())
}
