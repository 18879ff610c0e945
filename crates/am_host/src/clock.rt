//! The clock of the system.
ghost use Rattle.std.specs.Prelude.{◌≡◌, None};

use am_outside::Clock;
use std::marker::{Copy, Send};
use std::rt::Clock as Time;

/// The clock of the system, in milliseconds since 1970. When it can't be read, it stays at the same moment.
#[derive(Drop)]
pub struct SystemClock<R> {
    rt: R,
    last: u64,
}

impl<R> SystemClock<R> {
    /// The clock that the runtime reaches.
    pub fn new(rt: R) -> SystemClock<R> {
        SystemClock { rt, last: 0 }
    }
}

impl<R: Time + Copy + Drop + Send> Clock for SystemClock<R> {
    ghost moments = { λ clock calls. None };

    fn now(&mut self) -> u64 {
        if let Ok(time) = self.rt.since_1970() {
            let seconds = time.as_secs().saturating_mul(1000);
            self.last = seconds.saturating_add(u64::from(time.subsec_millis()));
        }
        self.last
    }

    fn another(&self) -> SystemClock<R> {
        SystemClock {
            rt: self.rt,
            last: self.last,
        }
    }
}
