//! A past receiver, and the delivery to the receiver whose turn it is.
ghost use Rattle.std.specs.Prelude.{◌≡◌, ◌+◌, ◌≤◌, ◌&&◌, ◌||◌, not, is_some};
ghost use Rattle.std.specs.Option.{option_copied};
ghost use Rattle.am_model.specs.Broadcasts.{is_abort, is_late};
ghost use Rattle.am_queue_ordered.specs.Turns.{set_by};

use am_types::{Answer, Outcome, Spot, Steps, copy_parts};
use std::alloc::AllocError;
use std::marker::Model;
use std::sync::ledger::Ledger;

/// What a receiver did with an ordered broadcast.
#[derive(Drop)]
pub enum Doing {
    Answered(Answer),
    /// Its deadline passed.
    Late,
    /// It went away.
    Gone,
}

/// A past receiver, and what it did.
#[derive(Drop)]
pub struct Past {
    spot: Spot,
    doing: Doing,
}

impl Model for Past {
    ghost use Rattle.am_model.specs.Broadcasts as broadcasts;

    ghost Value = { broadcasts.Past };

    ghost use Rattle.am_queue_ordered.specs.Doings.{doing_of};

    ghost view = { λ p. record { spot = p.spot; doing = doing_of p.doing } };
}

impl Past {
    ghost use Rattle.am_queue_ordered.specs.Doings.{doing_of};

    pub fn new(spot: Spot, doing: Doing) -> Self
        ensures { result ≡ record { spot = spot; doing = doing_of doing } }
    {
        Past { spot, doing }
    }

    /// The outcome that it set.
    pub fn outcome(&self) -> Option<&Outcome>
        ensures { option_copied result ≡ set_by self.now.doing }
    {
        match &self.doing {
            Doing::Answered(answer) => answer.set.as_ref(),
            Doing::Late => None,
            Doing::Gone => None,
        }
    }

    /// Whether it set the outcome of a broadcast, which may have ended before.
    pub fn sets(&self, ended: bool) -> bool
        ensures { result ≡ (is_some (set_by self.now.doing) && not ended) }
    {
        match &self.doing {
            Doing::Answered(answer) => answer.set.is_some() && !ended,
            Doing::Late => false,
            Doing::Gone => false,
        }
    }

    /// Whether an abort ended the broadcast with this receiver, or earlier.
    pub fn ends(&self, ended: bool, no_abort: bool) -> bool
        ensures { result ≡ (ended || (not no_abort && is_abort self.now.doing)) }
    {
        match &self.doing {
            Doing::Answered(answer) => ended || (!no_abort && answer.abort),
            Doing::Late => ended,
            Doing::Gone => ended,
        }
    }

    /// Takes out the outcome that it set.
    pub fn into_outcome(self) -> Option<Outcome>
        ensures { result ≡ set_by self.doing }
    {
        let Past { spot, doing } = self;
        drop(spot);
        match doing {
            Doing::Answered(answer) => answer.set,
            Doing::Late => None,
            Doing::Gone => None,
        }
    }
}

impl Clone for Doing {
    ghost is_clone = { λ x y. y ≡ x };

    fn clone(&self) -> Result<Doing, AllocError> {
        match self {
            Doing::Answered(answer) => Ok(Doing::Answered(answer.clone()?)),
            Doing::Late => Ok(Doing::Late),
            Doing::Gone => Ok(Doing::Gone),
        }
    }
}

impl Clone for Past {
    ghost is_clone = { λ x y. y ≡ x };

    fn clone(&self) -> Result<Past, AllocError> {
        copy_parts!(self, Past: value(spot doing))
    }
}

/// The delivery to the receiver whose turn it is.
#[derive(Drop)]
pub struct Current {
    number: u64,
    /// The moment at which it becomes late, in milliseconds.
    deadline: u64,
}

impl Model for Current {
    ghost use Rattle.am_model.specs.Broadcasts as broadcasts;

    ghost Value = { broadcasts.Current };

    ghost view = { λ c. record { number = c.number; deadline = c.deadline } };
}

impl Clone for Current {
    ghost is_clone = { λ x y. y ≡ x };

    fn clone(&self) -> Result<Current, AllocError> {
        copy_parts!(self, Current: ; number deadline)
    }
}

impl Current {
    pub fn new(number: u64, deadline: u64) -> Self
        ensures { result ≡ record { number = number; deadline = deadline } }
    {
        Current { number, deadline }
    }

    pub fn number(&self) -> u64
        ensures { result ≡ self.now.number }
    {
        self.number
    }

    /// The moment at which it becomes late. A step is a reading of it; there is no other. Takes no memory.
    pub fn deadline<L: Ledger>(&self, steps: &mut Steps<L>) -> u64
        ensures deadline { result ≡ self.now.deadline }
        ensures cost { steps.new ≤ steps.old + 1 }
    {
        steps.tick();
        self.deadline
    }

    /// Whether it is late. A step is a reading of its deadline; there is no other. Takes no memory.
    pub fn is_late<L: Ledger>(&self, now: u64, steps: &mut Steps<L>) -> bool
        ensures late { result ≡ is_late now (Some self.now) }
        ensures cost { steps.new ≤ steps.old + 1 }
    {
        steps.tick();
        self.deadline <= now
    }
}
