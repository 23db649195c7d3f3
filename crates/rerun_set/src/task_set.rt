ghost use Rattle.std.specs.Prelude.{◌≡◌, ◌≢◌, ◌↔◌, [], Contains, AllPairs, IsTrue, IfOk, OnOk, true, false};
ghost use Rattle.rerun_set.specs.Found.{Finds};

use indexmap::IndexSet;
use row_core::NoMemory;
use std::alloc::Global;
use std::marker::Model;

/// Tasks by their numbers, each once, in the order in which they came. One is found by its hash.
#[derive(Drop)]
pub struct TaskSet {
    numbers: IndexSet<usize>,
}

impl Model for TaskSet {
    ghost use Rattle.std.specs.Prelude.{List, ℕ};

    ghost Value = { List ℕ };

    ghost view = { λ set. set.numbers.keys };
}

impl TaskSet {
    /// The tasks of these numbers.
    pub fn of(alloc: Global, numbers: &[usize]) -> Result<Self, NoMemory>
        ensures { IfOk result (Finds [] (Contains numbers.now)) }
    {
        let mut set = TaskSet {
            numbers: IndexSet::new(alloc),
        };
        for number in numbers {
            set.insert(*number)?;
        }
        Ok(set)
    }

    pub fn as_slice(&self) -> &[usize]
        ensures items { result.now ≡ self.now }
        ensures once { AllPairs ◌≢◌ result.now }
    {
        self.numbers.as_slice()
    }

    pub fn contains(&self, number: usize) -> bool
        ensures { IsTrue result ↔ Contains self.now number }
    {
        self.numbers.contains(&number)
    }

    /// Adds a task at the end, unless it is there already.
    pub fn insert(&mut self, number: usize) -> Result<(), NoMemory>
        ensures { OnOk result (Finds self.old (λ n. n ≡ number) self.new) }
    {
        self.numbers.insert(number)?;
        Ok(())
    }

    /// Adds a task if it passes.
    pub fn insert_if(&mut self, number: usize, passes: bool) -> Result<(), NoMemory>
        ensures yes { OnOk result (passes ≡ true
            → Finds self.old (λ n. n ≡ number) self.new) }
        ensures no { passes ≡ false → self.new ≡ self.old }
    {
        if !passes {
            return Ok(());
        }
        self.insert(number)
    }
}
