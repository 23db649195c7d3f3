ghost use Rattle.std.specs.Prelude.{◌≡◌, ◌<◌, ℕ, nat_eq, [], false, true, length, get_or, map, count_by, All, IfOk, OnOk, OnErr};
ghost use Rattle.reader_index.specs.Links.{IsInside};
ghost use Rattle.reader_index.specs.Tasks.{is_between, is_done, missing, no_tasks, reads_of, undone, with_done, with_tasks};

use crate::index::count_all;
use crate::{Index, Producers, Read};
use row_core::NoMemory;
use std::alloc::Global;
use std::marker::Model;

/// Numbered tasks: who reads from whom, which are done, and for each how many of its reads are from
/// tasks that aren't.
#[derive(Debug, Drop)]
pub struct ReaderIndex {
    index: Index,
}

impl Model for ReaderIndex {
    ghost use Rattle.reader_index.specs.Tasks.{Tasks};
    ghost use Rattle.reader_index.specs.Kept.{IsKept, tasks_of};

    ghost Value = { Tasks };

    ghost view = { λ i. tasks_of i.index };

    ghost invariant = { λ i. IsKept i.index };
}

impl ReaderIndex {
    /// No tasks.
    pub fn new(alloc: Global) -> Self
        ensures { result ≡ no_tasks }
    {
        ReaderIndex {
            index: Index::new(alloc),
        }
    }

    /// The number of tasks. All reads are by these and from these.
    pub fn count(&self) -> usize
        ensures count { result ≡ length self.now.done }
        ensures inside { All (IsInside (length self.now.done)) self.now.reads }
    {
        self.index.done.len()
    }

    /// Adds tasks that aren't done, the first with the next number. They read from earlier ones
    /// that stand already. All memory is taken before the first is added.
    pub fn add_tasks(&mut self, tasks: &[Producers]) -> Result<(), NoMemory>
        requires { All (All (λ producer. producer < length self.old.done)) tasks.now }
        ensures ok { OnOk result (self.new ≡ with_tasks self.old tasks.now) }
        ensures err { OnErr result (self.new ≡ self.old) }
    {
        let reads = count_all(tasks)?;
        self.index.reserve(tasks.len(), reads)?;
        self.index.add_all(tasks);
        Ok(())
    }

    /// A task is done: fewer reads wait. It costs as much as the task has readers.
    pub fn finish(&mut self, task: usize)
        requires inside { task < length self.old.done }
        requires waits { is_done self.old.done task ≡ false }
        ensures { self.new ≡ with_done self.old task true }
    {
        self.index.finish(task);
    }

    /// A task is done no longer: more reads wait. It costs as much as the task has readers.
    pub fn reopen(&mut self, task: usize)
        requires inside { task < length self.old.done }
        requires done_task { is_done self.old.done task ≡ true }
        ensures { self.new ≡ with_done self.old task false }
    {
        self.index.reopen(task);
    }

    /// Whether a task is done.
    pub fn is_done(&self, task: usize) -> bool
        requires { task < length self.now.done }
        ensures { result ≡ is_done self.now.done task }
    {
        self.index.done[task]
    }

    /// How many of a task's reads are from tasks that aren't done.
    pub fn missing(&self, task: usize) -> usize
        requires { task < length self.now.done }
        ensures { result ≡ missing self.now task }
    {
        self.index.counts[task]
    }

    /// How many tasks aren't done.
    pub fn undone(&self) -> usize
        ensures { result ≡ undone self.now }
    {
        self.index.open_tasks
    }

    /// What a task reads, in the order in which it was added.
    pub fn reads_of(&self, task: usize) -> &[Read]
        requires { task < length self.now.done }
        ensures { result.now ≡ reads_of self.now task }
    {
        self.index.reads_of(task)
    }

    /// The readers of a task, each as often as it reads from it.
    pub fn readers_of(&self, alloc: Global, task: usize) -> Result<Vec<usize>, NoMemory>
        requires { task < length self.now.done }
        ensures { IfOk result (λ readers. (n : ℕ)
            → count_by (nat_eq n) readers.items ≡ count_by (is_between n task) self.now.reads) }
    {
        self.index.readers_of(alloc, task)
    }
}
