ghost use Rattle.std.specs.Prelude.{◌≡◌, ◌<◌, ◌↔◌, IsTrue, length, All, Contains, IfOk, OnOk, true};
ghost use Rattle.reader_index.specs.Links.{IsInside};
ghost use Rattle.reader_index.specs.Tasks.{is_done};
ghost use Rattle.rerun_set.specs.Found.{Finds};
ghost use Rattle.rerun_set.specs.Reruns.{AreReruns, HasOpenReader, Reads};

use crate::TaskSet;
use reader_index::ReaderIndex;
use row_core::NoMemory;
use std::alloc::Global;

/// The tasks that run again, in the order in which they were found: the least set that has each
/// task that is awaited, or whose result is gone and that has a reader that isn't done or runs
/// again, and each reader, if it was done, of a task that runs again. `awaited` are those of `gone`
/// that somebody else wants. It costs as much as those that are gone or run again have readers and
/// producers, however many other tasks there are.
pub fn reruns(
    alloc: Global,
    tasks: &ReaderIndex,
    gone: &[usize],
    awaited: &[usize],
) -> Result<Vec<usize>, NoMemory>
    requires gone { All (λ n. n < length tasks.now.done) gone.now }
    requires awaited { All (λ n. n < length tasks.now.done) awaited.now }
    ensures { IfOk result (λ again. AreReruns tasks.now gone.now awaited.now again.items) }
{
    let _count = tasks.count();
    let lost = TaskSet::of(alloc, gone)?;
    let mut again = TaskSet::of(alloc, awaited)?;
    add_wanted(alloc, &mut again, tasks, &lost)?;
    let mut next = 0;
    while next < again.as_slice().len() {
        let task = again.as_slice()[next];
        add_readers(alloc, &mut again, tasks, task)?;
        add_producers(&mut again, tasks, &lost, task)?;
        next += 1;
    }
    Ok(Vec::from_slice(alloc, again.as_slice())?)
}

// Adds the tasks whose results are gone while a reader isn't done.
fn add_wanted(
    alloc: Global,
    again: &mut TaskSet,
    tasks: &ReaderIndex,
    lost: &TaskSet,
) -> Result<(), NoMemory>
    requires inside { All (IsInside (length tasks.now.done)) tasks.now.reads }
    requires lost { All (λ n. n < length tasks.now.done) lost.now }
    ensures { OnOk result (Finds again.old
        (λ n. Contains lost.now n × HasOpenReader tasks.now n) again.new) }
{
    for task in lost.as_slice() {
        let open = has_open_reader(alloc, tasks, *task)?;
        again.insert_if(*task, open)?;
    }
    Ok(())
}

// Whether a task has a reader that isn't done.
fn has_open_reader(alloc: Global, tasks: &ReaderIndex, task: usize) -> Result<bool, NoMemory>
    requires task { task < length tasks.now.done }
    requires inside { All (IsInside (length tasks.now.done)) tasks.now.reads }
    ensures { IfOk result (λ has. IsTrue has ↔ HasOpenReader tasks.now task) }
{
    let readers = tasks.readers_of(alloc, task)?;
    for reader in readers.as_slice() {
        if !tasks.is_done(*reader) {
            return Ok(true);
        }
    }
    Ok(false)
}

// Adds the readers of a task that were done.
fn add_readers(
    alloc: Global,
    again: &mut TaskSet,
    tasks: &ReaderIndex,
    task: usize,
) -> Result<(), NoMemory>
    requires task { task < length tasks.now.done }
    requires inside { All (IsInside (length tasks.now.done)) tasks.now.reads }
    ensures { OnOk result (Finds again.old
        (λ n. Reads tasks.now n task × (is_done tasks.now.done n ≡ true)) again.new) }
{
    let readers = tasks.readers_of(alloc, task)?;
    for reader in readers.as_slice() {
        again.insert_if(*reader, tasks.is_done(*reader))?;
    }
    Ok(())
}

// Adds the producers of a task whose results are gone.
fn add_producers(
    again: &mut TaskSet,
    tasks: &ReaderIndex,
    lost: &TaskSet,
    task: usize,
) -> Result<(), NoMemory>
    requires task { task < length tasks.now.done }
    ensures { OnOk result (Finds again.old
        (λ n. Reads tasks.now task n × Contains lost.now n) again.new) }
{
    for read in tasks.reads_of(task) {
        again.insert_if(read.producer, lost.contains(read.producer))?;
    }
    Ok(())
}
