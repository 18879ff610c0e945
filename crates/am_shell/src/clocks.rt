//! The clock of a serving.
ghost use Rattle.std.specs.Prelude.{◌≡◌, ℕ};
ghost use Rattle.am_shell.specs.Clocks.{serving_moments, told_by};

use am_outside::Clock;

/// The clock of a serving's workers: the one that is handed in, or one that stays at a moment.
#[derive(Drop)]
pub(crate) enum ServingClock<C: Clock> {
    Handed(C),
    Standing(u64),
}

impl<C: Clock> Clock for ServingClock<C> {
    ghost moments = { λ clock. told_by C.Clock clock };

    fn now(&mut self) -> u64 {
        match self {
            ServingClock::Handed(clock) => clock.now(),
            ServingClock::Standing(moment) => *moment,
        }
    }

    fn another(&self) -> ServingClock<C> {
        match self {
            ServingClock::Handed(clock) => ServingClock::Handed(clock.another()),
            ServingClock::Standing(moment) => ServingClock::Standing(*moment),
        }
    }
}

/// The clock of a serving: one that stays at the moment that is asked for, otherwise the one that is handed in, which
/// isn't asked if a moment is asked for.
pub(crate) fn clock_of<C: Clock>(at: Option<u64>, clock: &C) -> ServingClock<C>
    ensures { (calls : ℕ) → told_by C.Clock result calls ≡ serving_moments at (C.moments clock.now) calls }
{
    match at {
        Some(moment) => ServingClock::Standing(moment),
        None => ServingClock::Handed(clock.another()),
    }
}
