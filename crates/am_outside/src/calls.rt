//! The calls of an object in memory, of which some fail.
ghost use Rattle.std.specs.Prelude.{◌≡◌, ◌≤◌};
ghost use Rattle.am_outside.specs.Memory.{fails, one_more};
ghost use Rattle.am_outside.specs.Calls.{after_call, no_calls};

use crate::memory::is_failing;
use am_types::List;

/// Counts the calls of an object, and those that failed. Both counts stay at the greatest 64-bit number.
#[derive(Drop)]
pub struct Calls {
    /// The numbers of the calls that fail, counted from 1.
    pub failing: List<u32>,
    /// How many calls there were.
    pub made: u64,
    /// How many of them failed.
    pub faults: u64,
}

impl Calls {
    /// No calls yet. Takes no memory.
    pub fn new(failing: List<u32>) -> Calls
        ensures { result ≡ no_calls failing }
    {
        Calls {
            failing,
            made: 0,
            faults: 0,
        }
    }

    /// Counts a call, and tells whether it fails. Takes no memory.
    pub fn next_fails(&mut self) -> bool
        ensures exact { self.new ≡ after_call self.old result }
        ensures never_falls { self.old.faults ≤ self.new.faults }
        ensures fails { result ≡ fails self.old.failing (one_more self.old.made) }
    {
        self.made = self.made.saturating_add(1);
        let fails = is_failing(&self.failing, self.made);
        if fails {
            self.faults = self.faults.saturating_add(1);
        }
        fails
    }
}
