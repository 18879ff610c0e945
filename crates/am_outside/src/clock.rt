//! The moments at which calls are made.
ghost use Rattle.std.specs.Prelude.{◌≡◌, ℕ, suc, Option, Some};
ghost use Rattle.am_outside.specs.Clock.{IsTold, advanced, moment_at};

use std::marker::Send;

/// A clock, in milliseconds.
pub trait Clock: Drop + Send {
    /// What the clock will answer to its call of that number, counted from 0, if it tells it.
    ghost moments: { Self → ℕ → Option ℕ };

    /// The moment now.
    fn now(&mut self) -> u64
        ensures moment { IsTold (moments self.old 0) result }
        ensures next { (calls : ℕ) → moments self.new calls ≡ moments self.old (suc calls) };

    /// A clock for another worker. It will answer the same moments as this one from now on, if this one tells them.
    fn another(&self) -> Self
        ensures same { (calls : ℕ) → moments result calls ≡ moments self.now calls };
}

/// A clock that answers a first moment, then one a step later each time. It stays when the next
/// moment would pass the greatest 64-bit number.
#[derive(Clone, Copy, Debug, PartialEq, Eq)]
pub struct StepClock {
    next: u64,
    step: u64,
}

impl StepClock {
    /// A clock whose first answer is `first`. Takes no memory.
    pub fn new(first: u64, step: u64) -> StepClock
        ensures { (calls : ℕ) → ⟦<StepClock as Clock>⟧.moments result calls ≡ Some (moment_at first step calls) }
    {
        StepClock { next: first, step }
    }
}

impl Clock for StepClock {
    ghost moments = { λ clock calls. Some (moment_at clock.next clock.step calls) };

    fn now(&mut self) -> u64 {
        let moment = self.next;
        self.next = moment.checked_add(self.step).unwrap_or(moment);
        moment
    }

    fn another(&self) -> StepClock
        ensures { result ≡ self.now }
    {
        *self
    }
}
