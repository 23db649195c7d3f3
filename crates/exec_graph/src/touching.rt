ghost use Rattle.std.specs.Prelude.{◌≡◌, ◌<◌, ◌∷◌, ◌++◌, [], All, IfOk, OnOk, length, map};
ghost use Rattle.graph_model.specs.Indexes.{sub_at};
ghost use Rattle.ready_subtasks.specs.Touches.{AreTouched};

use event_graph::EventGraph;
use graph_model::Sub;
use row_core::NoMemory;
use std::alloc::Global;

/// A subtask and its readers; none where it isn't decided.
pub fn touched_by(alloc: Global, job: &EventGraph, sub: Sub) -> Result<Vec<Sub>, NoMemory>
    ensures { IfOk result (λ touched.
        AreTouched job.now.state.vertices (sub ∷ []) touched.items) }
{
    let numbers = job.numbers();
    if !job.has(sub) {
        return Ok(Vec::new(alloc));
    }
    let readers = numbers.tasks().readers_of(alloc, numbers.number(sub))?;
    let mut touched = subs_at(alloc, numbers.subs(), readers.as_slice())?;
    touched.push(sub)?;
    Ok(touched)
}

/// These subtasks and their readers; none where one isn't decided.
pub fn touched_by_all(alloc: Global, job: &EventGraph, subs: &[Sub]) -> Result<Vec<Sub>, NoMemory>
    ensures { IfOk result (λ touched.
        AreTouched job.now.state.vertices subs.now touched.items) }
{
    let mut touched = Vec::new(alloc);
    for place in 0..subs.len() {
        let more = touched_by(alloc, job, subs[place])?;
        append(&mut touched, more)?;
    }
    Ok(touched)
}

fn append(subs: &mut Vec<Sub>, more: Vec<Sub>) -> Result<(), NoMemory>
    ensures { OnOk result (subs.new.items ≡ subs.old.items ++ more.items) }
{
    let mut more = more;
    subs.append(&mut more)?;
    Ok(())
}

fn subs_at(alloc: Global, subs: &[Sub], numbers: &[usize]) -> Result<Vec<Sub>, NoMemory>
    requires { All (λ n. n < length subs.now) numbers.now }
    ensures { IfOk result (λ found. found.items ≡ map (sub_at subs.now) numbers.now) }
{
    let mut found = Vec::with_capacity(alloc, numbers.len())?;
    for place in 0..numbers.len() {
        found.push(subs[numbers[place]])?;
    }
    Ok(found)
}
