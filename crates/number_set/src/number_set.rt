ghost use Rattle.std.specs.Prelude.{◌≡◌, ◌<◌, false, true, length, replicate, set, IfNone, IfOk, IfSome};
ghost use Rattle.number_set.specs.Members.{IsEmpty, IsFirst, is_marked, members};

use crate::Marks;
use crate::levels::{first_mark, marked_places, new_levels, set_mark};
use row_core::NoMemory;
use std::alloc::Global;
use std::marker::Model;

/// A set of numbers below a bound. Contracts see a mark for each number.
#[derive(Debug, Drop)]
pub struct NumberSet {
    levels: Vec<Marks>,
}

impl Model for NumberSet {
    ghost use Rattle.std.specs.Prelude.{List, Bool};
    ghost use Rattle.number_set.specs.Levels.{AreLevels, level_at};

    ghost Value = { List Bool };

    ghost view = { λ numbers. level_at numbers.levels.items 0 };

    ghost invariant = { λ numbers. AreLevels numbers.levels.items };
}

impl NumberSet {
    /// No number, of those below a bound.
    pub fn new(alloc: Global, bound: usize) -> Result<Self, NoMemory>
        ensures { IfOk result (λ numbers. numbers ≡ replicate bound false) }
    {
        Ok(NumberSet {
            levels: new_levels(alloc, bound, false)?,
        })
    }

    /// All numbers below a bound.
    pub fn full(alloc: Global, bound: usize) -> Result<Self, NoMemory>
        ensures { IfOk result (λ numbers. numbers ≡ replicate bound true) }
    {
        Ok(NumberSet {
            levels: new_levels(alloc, bound, true)?,
        })
    }

    /// Takes a number in, or out. It takes no memory.
    pub fn set(&mut self, number: usize, inside: bool)
        requires { number < length self.old }
        ensures { self.new ≡ set self.old number inside }
    {
        set_mark(&mut self.levels, number, inside);
    }

    /// Whether the number is in the set.
    pub fn has(&self, number: usize) -> bool
        ensures { result ≡ is_marked self.now number }
    {
        match self.levels.first() {
            Some(marks) => marks.at(number),
            None => false,
        }
    }

    /// The least number of the set.
    pub fn first(&self) -> Option<usize>
        ensures some { IfSome result (IsFirst self.now) }
        ensures none { IfNone result (IsEmpty self.now) }
    {
        first_mark(self.levels.as_slice())
    }

    /// The numbers of the set, in ascending order. It costs as much as they are, times the digits
    /// of the bound.
    pub fn members(&self, alloc: Global) -> Result<Vec<usize>, NoMemory>
        ensures { IfOk result (λ numbers. numbers.items ≡ members self.now) }
    {
        marked_places(alloc, self.levels.as_slice())
    }
}
