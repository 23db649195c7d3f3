use crate::{Clock, Numbers};
use row_core::NoMemory;
use std::alloc::Global;
use std::sync::Wait;

/// Tells given times, one a reading. The last repeats.
#[derive(Debug, Drop)]
pub struct FixedClock {
    moments: Numbers,
    place: usize,
}

impl FixedClock {
    ghost use Rattle.std.specs.Prelude.{◌≡◌, ℕ, true, IfOk};
    ghost use Rattle.estate.specs.Readings.{reading};
    ghost use Rattle.estate.specs.Memory.{clock_readings};

    /// An empty list gives 0 at each reading.
    pub fn new(alloc: Global, moments: &Numbers) -> Result<FixedClock, NoMemory>
        ensures told { IfOk result (λ made. (clock_readings made).told ≡ true) }
        ensures readings { IfOk result (λ made. (k : ℕ) →
            (clock_readings made).at k ≡ reading moments.now k) }
    {
        Ok(FixedClock {
            moments: Numbers::from_vec(moments.as_slice().to_vec(alloc)?),
            place: 0,
        })
    }
}

impl Clock for FixedClock {
    ghost use Rattle.estate.specs.Memory.{clock_readings};

    ghost readings = { clock_readings };

    fn now(&mut self) -> u64 {
        let moments = self.moments.as_slice();
        if moments.is_empty() {
            return 0;
        }
        let last = moments.len() - 1;
        if self.place >= last {
            return moments[last];
        }
        let moment = moments[self.place];
        self.place += 1;
        moment
    }

    fn pause<R: Wait>(&mut self, _rt: &R) {}
}
