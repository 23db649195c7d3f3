// Clauses on readings hold where the clock tells its coming ones.
ghost use Rattle.std.specs.Prelude.{◌≡◌, IsTrue};
ghost use Rattle.estate.specs.Readings.{Readings, MovesOn, StandsStill};

use std::sync::Wait;

/// Tells the time, in milliseconds.
pub trait Clock {
    /// The coming readings, numbered from 0.
    ghost readings: { Self → Readings };

    fn now(&mut self) -> u64
        ensures told { (readings self.new).told ≡ (readings self.old).told }
        ensures first { IsTrue (readings self.old).told → result ≡ (readings self.old).at 0 }
        ensures next { IsTrue (readings self.old).told →
            MovesOn (readings self.old) (readings self.new) };

    /// Lets some time pass. It may wait for another thread.
    fn pause<R: Wait>(&mut self, rt: &R)
        ensures told { (readings self.new).told ≡ (readings self.old).told }
        ensures same { IsTrue (readings self.old).told →
            StandsStill (readings self.old) (readings self.new) };
}
