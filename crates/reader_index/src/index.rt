ghost use Rattle.std.specs.Prelude.{◌≡◌, ◌+◌, ◌<◌, ◌≤◌, ℕ, nat_eq, [], not, false, true, length, get_or, count_by, filter, All, vec_len, vec_capacity, OnOk, IfOk};
ghost use Rattle.std.specs.List.{sum_by};
ghost use Rattle.reader_index.specs.Kept.{IsKept, tasks_of};
ghost use Rattle.reader_index.specs.Tasks.{is_between, is_done, is_of, no_tasks, with_done, with_task, with_tasks};

use crate::turning::{collect, lower, raise};
use crate::{Links, Producers, Read};
use row_core::NoMemory;
use std::alloc::{AllocError, Global};

/// The parts of an index.
#[derive(Debug, Drop)]
pub struct Index {
    pub links: Links,
    pub ends: Vec<usize>,
    pub counts: Vec<usize>,
    pub done: Vec<bool>,
    pub open_tasks: usize,
}

impl Index {
    pub fn new(alloc: Global) -> Self
        ensures tasks { tasks_of result ≡ no_tasks }
        ensures index { IsKept result }
    {
        Index {
            links: Links::new(alloc),
            ends: Vec::new(alloc),
            counts: Vec::new(alloc),
            done: Vec::new(alloc),
            open_tasks: 0,
        }
    }

    /// Takes the room of so many tasks and reads.
    pub fn reserve(&mut self, tasks: usize, reads: usize) -> Result<(), NoMemory>
        ensures reads { self.new.links.reads.items ≡ self.old.links.reads.items }
        ensures earlier { self.new.links.earlier.items ≡ self.old.links.earlier.items }
        ensures last { self.new.links.last.items ≡ self.old.links.last.items }
        ensures ends { self.new.ends.items ≡ self.old.ends.items }
        ensures counts { self.new.counts.items ≡ self.old.counts.items }
        ensures done { self.new.done.items ≡ self.old.done.items }
        ensures open_tasks { self.new.open_tasks ≡ self.old.open_tasks }
        ensures room_reads { OnOk result
            (vec_len self.new.links.reads + reads ≤ vec_capacity self.new.links.reads) }
        ensures room_earlier { OnOk result
            (vec_len self.new.links.earlier + reads ≤ vec_capacity self.new.links.earlier) }
        ensures room_last { OnOk result
            (vec_len self.new.links.last + tasks ≤ vec_capacity self.new.links.last) }
        ensures room_ends { OnOk result
            (vec_len self.new.ends + tasks ≤ vec_capacity self.new.ends) }
        ensures room_counts { OnOk result
            (vec_len self.new.counts + tasks ≤ vec_capacity self.new.counts) }
        ensures room_done { OnOk result
            (vec_len self.new.done + tasks ≤ vec_capacity self.new.done) }
    {
        self.links.reserve(tasks, reads)?;
        self.ends.reserve(tasks)?;
        self.counts.reserve(tasks)?;
        self.done.reserve(tasks)?;
        Ok(())
    }

    /// A task more, that isn't done and that nobody reads from yet. There is room for it.
    pub fn add_task(&mut self, producers: &[usize])
        requires index { IsKept self.old }
        requires inside { All (λ producer. producer < length self.old.done.items) producers.now }
        requires room_reads { vec_len self.old.links.reads + length producers.now
            ≤ vec_capacity self.old.links.reads }
        requires room_earlier { vec_len self.old.links.earlier + length producers.now
            ≤ vec_capacity self.old.links.earlier }
        requires room_last { vec_len self.old.links.last < vec_capacity self.old.links.last }
        requires room_ends { vec_len self.old.ends < vec_capacity self.old.ends }
        requires room_counts { vec_len self.old.counts < vec_capacity self.old.counts }
        requires room_done { vec_len self.old.done < vec_capacity self.old.done }
        ensures index { IsKept self.new }
        ensures tasks { tasks_of self.new ≡ with_task (tasks_of self.old) producers.now }
        ensures reads_len { vec_len self.new.links.reads
            ≡ vec_len self.old.links.reads + length producers.now }
        ensures earlier_len { vec_len self.new.links.earlier
            ≡ vec_len self.old.links.earlier + length producers.now }
        ensures last_len { vec_len self.new.links.last ≡ vec_len self.old.links.last + 1 }
        ensures ends_len { vec_len self.new.ends ≡ vec_len self.old.ends + 1 }
        ensures counts_len { vec_len self.new.counts ≡ vec_len self.old.counts + 1 }
        ensures done_len { vec_len self.new.done ≡ vec_len self.old.done + 1 }
        ensures reads_room { vec_capacity self.new.links.reads
            ≡ vec_capacity self.old.links.reads }
        ensures earlier_room { vec_capacity self.new.links.earlier
            ≡ vec_capacity self.old.links.earlier }
        ensures last_room { vec_capacity self.new.links.last ≡ vec_capacity self.old.links.last }
        ensures ends_room { vec_capacity self.new.ends ≡ vec_capacity self.old.ends }
        ensures counts_room { vec_capacity self.new.counts ≡ vec_capacity self.old.counts }
        ensures done_room { vec_capacity self.new.done ≡ vec_capacity self.old.done }
    {
        let waiting = count_waiting(self.done.as_slice(), producers);
        self.links.add_task(self.done.len(), producers);
        self.ends.push_reserved(self.links.reads.len());
        self.counts.push_reserved(waiting);
        self.done.push_reserved(false);
        self.open_tasks += 1;
    }

    /// Tasks more, that aren't done. There is room for them.
    pub fn add_all(&mut self, tasks: &[Producers])
        requires index { IsKept self.old }
        requires inside { All (All (λ producer. producer < length self.old.done.items)) tasks.now }
        requires room_reads { vec_len self.old.links.reads + sum_by length tasks.now
            ≤ vec_capacity self.old.links.reads }
        requires room_earlier { vec_len self.old.links.earlier + sum_by length tasks.now
            ≤ vec_capacity self.old.links.earlier }
        requires room_last { vec_len self.old.links.last + length tasks.now
            ≤ vec_capacity self.old.links.last }
        requires room_ends { vec_len self.old.ends + length tasks.now
            ≤ vec_capacity self.old.ends }
        requires room_counts { vec_len self.old.counts + length tasks.now
            ≤ vec_capacity self.old.counts }
        requires room_done { vec_len self.old.done + length tasks.now
            ≤ vec_capacity self.old.done }
        ensures index { IsKept self.new }
        ensures tasks { tasks_of self.new ≡ with_tasks (tasks_of self.old) tasks.now }
    {
        for place in 0..tasks.len() {
            self.add_task(tasks[place].as_slice());
        }
    }

    /// A task is done.
    pub fn finish(&mut self, task: usize)
        requires index { IsKept self.old }
        requires inside { task < length self.old.done.items }
        requires open_task { get_or self.old.done.items task false ≡ false }
        ensures index { IsKept self.new }
        ensures tasks { tasks_of self.new ≡ with_done (tasks_of self.old) task true }
    {
        let first = self.links.last[task];
        let reads = self.links.reads.as_slice();
        let earlier = self.links.earlier.as_slice();
        lower(&mut self.counts, reads, earlier, first);
        self.done[task] = true;
        self.open_tasks -= 1;
    }

    /// A task is done no longer.
    pub fn reopen(&mut self, task: usize)
        requires index { IsKept self.old }
        requires inside { task < length self.old.done.items }
        requires done_task { get_or self.old.done.items task false ≡ true }
        ensures index { IsKept self.new }
        ensures tasks { tasks_of self.new ≡ with_done (tasks_of self.old) task false }
    {
        let first = self.links.last[task];
        let reads = self.links.reads.as_slice();
        let earlier = self.links.earlier.as_slice();
        raise(&mut self.counts, reads, earlier, first);
        self.done[task] = false;
        self.open_tasks += 1;
    }

    /// What a task reads.
    pub fn reads_of(&self, task: usize) -> &[Read]
        requires index { IsKept self.now }
        requires inside { task < length self.now.done.items }
        ensures { result.now ≡ filter (is_of task) self.now.links.reads.items }
    {
        let start = if task == 0 { 0 } else { self.ends[task - 1] };
        &self.links.reads.as_slice()[start..self.ends[task]]
    }

    /// The readers of a task, each as often as it reads from it.
    pub fn readers_of(&self, alloc: Global, task: usize) -> Result<Vec<usize>, NoMemory>
        requires index { IsKept self.now }
        requires inside { task < length self.now.done.items }
        ensures { IfOk result (λ readers. (n : ℕ) → count_by (nat_eq n) readers.items
            ≡ count_by (is_between n task) self.now.links.reads.items) }
    {
        let first = self.links.last[task];
        let reads = self.links.reads.as_slice();
        let earlier = self.links.earlier.as_slice();
        collect(alloc, reads, earlier, first)
    }
}

/// How many of these tasks aren't done.
fn count_waiting(done: &[bool], producers: &[usize]) -> usize
    requires { All (λ producer. producer < length done.now) producers.now }
    ensures { result ≡ count_by (λ producer. not (is_done done.now producer)) producers.now }
{
    let mut waiting = 0;
    for place in 0..producers.len() {
        if !done[producers[place]] {
            waiting += 1;
        }
    }
    waiting
}

/// How many producers there are in all.
pub fn count_all(tasks: &[Producers]) -> Result<usize, NoMemory>
    ensures { IfOk result (λ count. count ≡ sum_by length tasks.now) }
{
    let mut count: usize = 0;
    for task in tasks {
        let Some(more) = count.checked_add(task.as_slice().len()) else {
            return Err(AllocError);
        };
        count = more;
    }
    Ok(count)
}
