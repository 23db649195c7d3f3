ghost use Rattle.std.specs.Prelude.{◌≡◌, ◌+◌, ◌<◌, ◌≤◌, ℕ, [], true, false, ◌++◌, ◌^◌, All, length, get_or, nat_eq, set, vec_len, vec_capacity, OnErr, OnOk};
ghost use Rattle.event_graph.specs.Numbers.{number_of, own_subs};
ghost use Rattle.reader_index.specs.Tasks.{is_done, missing, no_tasks, reads_of, undone, with_done, with_tasks};

use graph_model::Sub;
use reader_index::{Producers, Read, ReaderIndex};
use row_core::NoMemory;
use std::alloc::Global;
use std::marker::Model;

/// The subtasks of decided vertices, by number: those of a vertex follow one another. Who reads
/// from whom, and how many of what each reads have no winner.
#[derive(Debug, Drop)]
pub struct Numbers {
    places: Vec<usize>,
    subs: Vec<Sub>,
    index: ReaderIndex,
}

impl Model for Numbers {
    ghost use Rattle.event_graph.specs.Numbers.{Numbering};

    ghost Value = { Numbering };

    ghost view = { λ n. record {
      places = n.places.items;
      subs = n.subs.items;
      tasks = n.index;
    } };
}

impl Numbers {
    pub fn new(alloc: Global) -> Self
        ensures places { result.places ≡ [] }
        ensures subs { result.subs ≡ [] }
        ensures tasks { result.tasks ≡ no_tasks }
    {
        Numbers {
            places: Vec::new(alloc),
            subs: Vec::new(alloc),
            index: ReaderIndex::new(alloc),
        }
    }

    /// The number of a decided vertex's first subtask.
    pub fn place(&self, vertex: usize) -> usize
        ensures { result ≡ get_or self.now.places vertex 0 }
    {
        match self.places.get(vertex) {
            Some(place) => *place,
            None => 0,
        }
    }

    /// The number of a subtask that has one.
    pub fn number(&self, sub: Sub) -> usize
        requires vertex { sub.vertex < length self.now.places }
        requires inside { number_of self.now sub < length self.now.subs }
        ensures { result ≡ number_of self.now sub }
    {
        self.places[sub.vertex as usize] + sub.subtask as usize
    }

    /// The number of each vertex's first subtask, which counts once the vertex is decided.
    pub fn places(&self) -> &[usize]
        ensures { result.now ≡ self.now.places }
    {
        self.places.as_slice()
    }

    /// Who reads from whom, by numbers, and who has won.
    pub fn tasks(&self) -> &ReaderIndex
        ensures { result.now ≡ self.now.tasks }
    {
        &self.index
    }

    /// The subtask of each number.
    pub fn subs(&self) -> &[Sub]
        ensures { result.now ≡ self.now.subs }
    {
        self.subs.as_slice()
    }

    /// What a subtask reads.
    pub fn reads_of(&self, number: usize) -> &[Read]
        requires { number < length self.now.tasks.done }
        ensures { result.now ≡ reads_of self.now.tasks number }
    {
        self.index.reads_of(number)
    }

    /// How many of the reads of a subtask are from subtasks without a winner.
    pub fn missing(&self, number: usize) -> usize
        requires { number < length self.now.tasks.done }
        ensures { result ≡ missing self.now.tasks number }
    {
        self.index.missing(number)
    }

    /// Gives so many vertices a place, which counts once they are decided.
    #[tactic(auto, using(crate::proofs::Numbering::push_none))]
    pub fn cover(&mut self, count: usize) -> Result<(), NoMemory>
        requires { count ≤ length self.old.places + 1 }
        ensures places { (k : ℕ) → get_or self.new.places k 0 ≡ get_or self.old.places k 0 }
        ensures long { length self.old.places ≤ length self.new.places }
        ensures subs { self.new.subs ≡ self.old.subs }
        ensures tasks { self.new.tasks ≡ self.old.tasks }
        ensures ok { OnOk result (count ≤ length self.new.places) }
    {
        if self.places.len() < count {
            self.places.push(0)?;
        }
        Ok(())
    }

    /// Whether the number of subtasks without a winner is 0.
    pub fn are_won(&self) -> bool
        ensures { result ≡ nat_eq (undone self.now.tasks) 0 }
    {
        self.index.undone() == 0
    }

    /// A vertex is decided: its subtasks read from these. All memory is taken before the first is
    /// numbered.
    pub fn decide(&mut self, vertex: u32, lists: &[Producers]) -> Result<(), NoMemory>
        requires place { vertex < length self.old.places }
        requires few { length lists.now < 2 ^ 32 }
        requires inside { All (All (λ number. number < length self.old.tasks.done)) lists.now }
        ensures ok { OnOk result (self.new ≡ record {
          places = set self.old.places vertex (length self.old.subs);
          subs = self.old.subs ++ own_subs vertex (length lists.now);
          tasks = with_tasks self.old.tasks lists.now;
        }) }
        ensures err { OnErr result (self.new ≡ self.old) }
    {
        self.subs.reserve(lists.len())?;
        self.index.add_tasks(lists)?;
        self.places[vertex as usize] = self.subs.as_slice().len();
        push_subs(&mut self.subs, vertex, lists.len() as u32);
        Ok(())
    }

    /// A subtask has a winner now.
    pub fn finish(&mut self, number: usize)
        requires inside { number < length self.old.tasks.done }
        requires waits { is_done self.old.tasks.done number ≡ false }
        ensures { self.new ≡ record self.old { tasks = with_done self.old.tasks number true } }
    {
        self.index.finish(number);
    }

    /// A subtask has no winner any more.
    pub fn reopen(&mut self, number: usize)
        requires inside { number < length self.old.tasks.done }
        requires won { is_done self.old.tasks.done number ≡ true }
        ensures { self.new ≡ record self.old { tasks = with_done self.old.tasks number false } }
    {
        self.index.reopen(number);
    }
}

// The subtasks of a vertex more. There is room for them.
fn push_subs(subs: &mut Vec<Sub>, vertex: u32, count: u32)
    requires { vec_len subs.old + count ≤ vec_capacity subs.old }
    ensures { subs.new.items ≡ subs.old.items ++ own_subs vertex count }
{
    for subtask in 0..count {
        subs.push_reserved(Sub { vertex, subtask });
    }
}
