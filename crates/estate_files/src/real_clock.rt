ghost use Rattle.std.specs.Prelude.{false};

use estate::Clock;
use std::sync::Wait;
use std::time::{Duration, SystemTime, UNIX_EPOCH};
use std::{rt, thread};

/// The system's clock. It doesn't tell its coming readings.
#[derive(Drop)]
pub struct RealClock<'a, R> {
    rt: &'a R,
}

// How long a pause lasts, in milliseconds.
const PAUSE_MS: u64 = 50;

impl<'a, R> RealClock<'a, R> {
    pub fn new(rt: &'a R) -> Self {
        RealClock { rt }
    }
}

impl<'a, R: rt::Clock> Clock for RealClock<'a, R> {
    ghost readings = { λ clock. record { told = false; at = λ k. 0 } };

    fn now(&mut self) -> u64 {
        match milliseconds(self.rt) {
            Some(now) => now,
            None => 0,
        }
    }

    fn pause<W: Wait>(&mut self, _rt: &W) {
        thread::sleep(self.rt, Duration::from_millis(PAUSE_MS))
    }
}

// The time since 1970, in milliseconds, if the system tells one.
fn milliseconds(rt: &impl rt::Clock) -> Option<u64> {
    let now = SystemTime::now(rt).ok()?;
    let since = now.duration_since(UNIX_EPOCH).ok()?;
    u64::try_from(since.as_millis()).ok()
}
