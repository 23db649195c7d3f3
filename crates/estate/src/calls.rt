ghost use Rattle.std.specs.Prelude.{◌≡◌, ◌↔◌, ◌+◌, min, IfOk, IsTrue};
ghost use Rattle.estate.specs.Limit.{MayBeCounted};

use crate::Numbers;
use row_core::NoMemory;
use std::alloc::Global;

/// After so many calls each further one fails, so that moments stay below 2^64.
const MOST_CALLS: u64 = 1 << 61;

/// Counts the calls of an object in memory, and knows which of them fail.
#[derive(Debug, Drop)]
pub struct Calls {
    /// How many there were. The first has the number 0.
    pub count: u64,
    failing: Vec<u64>,
    ghost few: { MayBeCounted count },
}

impl Calls {
    ghost use Rattle.estate.specs.Calls.{FailsNext};

    pub fn new(alloc: Global, failing: &Numbers) -> Result<Self, NoMemory>
        ensures count { IfOk result (λ calls. calls.count ≡ 0) }
        ensures failing { IfOk result (λ calls. calls.failing.items ≡ failing.now) }
    {
        Ok(Calls {
            count: 0,
            failing: failing.as_slice().to_vec(alloc)?,
        })
    }

    pub fn is_full(&self) -> bool
        ensures { IsTrue result ↔ (self.now.count ≡ MOST_CALLS) }
    {
        self.count == MOST_CALLS
    }

    /// Counts a call, and says whether it is to fail.
    pub fn begin(&mut self) -> bool
        ensures count { self.new.count ≡ min (self.old.count + 1) MOST_CALLS }
        ensures failing { self.new.failing.items ≡ self.old.failing.items }
        ensures fails { IsTrue result ↔ FailsNext self.old }
    {
        if self.is_full() {
            return true;
        }
        let fails = self.failing.contains(&self.count);
        self.count += 1;
        fails
    }
}
