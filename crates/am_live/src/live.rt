//! The live state, and time.
ghost use Rattle.std.specs.Prelude.{◌≡◌, ◌+◌, ◌<◌, ◌≤◌, IfOk, MatchOption};
ghost use Rattle.std.specs.Option.{option_copied};
ghost use Rattle.am_types.specs.Bounds.{latest_moment};
ghost use Rattle.am_model.specs.Sound.{IsSound};
ghost use Rattle.am_history.specs.Answers.{for_admin};
ghost use Rattle.am_history.specs.State.{key_of, opening, uid_of};
ghost use Rattle.am_history.specs.Steps.{advance, advanced, at_moment, due, moment_after};

use am_live_callers::{Caller, key_of_package, uid_of};
use am_pending::Pending;
use am_queue::{LAST_MOMENT, Queues};
use am_resolve::Board;
use am_services::Services;
use am_tasks::Tasks;
use am_types::{Device, Limit, NoMemory, ROOT, Reply, Rule, SYSTEM, Steps, Text, drop_parts};
use std::alloc::Global;
use std::hash::RandomState;
use std::marker::Model;
use std::sync::ledger::Ledger;

/// The live state of a device. Contracts see it as the state in the definitions.
pub struct Live {
    pub(crate) alloc: Global,
    pub(crate) system_key: Text,
    pub(crate) root_key: Option<Text>,
    pub(crate) board: Board,
    pub(crate) queues: Queues,
    pub(crate) pending: Pending,
    pub(crate) tasks: Tasks,
    pub(crate) services: Services,
    pub(crate) next_uid: u32,
    pub(crate) next_registration: u64,
    pub(crate) moment: u64,
}

impl Model for Live {
    ghost use Rattle.std.specs.Prelude.{◌≤◌, length};
    ghost use Rattle.am_types.specs.Bounds.{latest_moment};
    ghost use Rattle.am_history.specs.State.{State};

    ghost Value = { State };

    ghost use Rattle.am_live.specs.States.{state_of};

    ghost view = { state_of };

    // Deadlines after a moment are below 2^64, and a device has at most 256 packages.
    ghost invariant = { λ l. (l.moment ≤ latest_moment) × (length l.board.packages ≤ 256) };
}

impl Drop for Live {
    fn drop(self) {
        drop_parts!(self, Live: alloc system_key root_key board queues pending tasks services next_uid next_registration moment);
    }
}

/// The moment `more` milliseconds ahead of `moment`, unless it is past the greatest one.
fn moment_ahead(moment: u64, more: u64) -> Option<u64>
    requires { moment ≤ latest_moment }
    ensures { MatchOption result (latest_moment < moment + more)
        (λ ahead. (ahead ≡ moment + more) × (ahead ≤ latest_moment)) }
{
    if more <= LAST_MOMENT - moment {
        Some(moment + more)
    } else {
        None
    }
}

impl Live {
    /// The state of a sound device before the first call. The next package gets `next_uid`. The state
    /// keeps the allocator for later calls. What callers choose is hashed under the keys that were drawn,
    /// if there are any.
    pub fn from_device(
        alloc: Global,
        drawn: Option<RandomState>,
        device: Device,
        next_uid: u32,
    ) -> Result<Live, NoMemory>
        requires { IsSound device }
        ensures { IfOk result (λ live. live ≡ record (opening device) { next_uid = next_uid }) }
    {
        let system_key = device.system_key.clone()?;
        let root_key = device.root_key.clone()?;
        let board = Board::from_device(alloc, device)?;
        Ok(Live {
            alloc,
            system_key,
            root_key,
            board,
            queues: Queues::new(alloc),
            pending: Pending::keyed(alloc, drawn),
            tasks: Tasks::new(alloc),
            services: Services::new(alloc),
            next_uid,
            next_registration: 1,
            moment: 0,
        })
    }

    /// The uid that has the key, if there is one. Takes no memory.
    pub fn uid_of(&self, key: &Text) -> Option<u32>
        ensures { result ≡ uid_of self.now key.now }
    {
        uid_of(&self.system_key, &self.root_key, self.board.packages(), key)
    }

    /// The key of the caller with the uid, if there is one. Takes no memory.
    pub fn key_of(&self, uid: u32) -> Option<&Text>
        ensures { option_copied result ≡ key_of self.now uid }
    {
        if uid == SYSTEM {
            return Some(&self.system_key);
        }
        if uid == ROOT {
            return self.root_key.as_ref();
        }
        key_of_package(self.board.packages(), uid)
    }

    /// The moment of a call at `now`, in milliseconds: never before the last one, and 2^62 at most. Takes
    /// no memory.
    pub fn moment_after(&self, now: u64) -> u64
        ensures moment { result ≡ moment_after self.now now }
        ensures last { result ≤ latest_moment }
    {
        self.moment.max(now.min(LAST_MOMENT))
    }

    /// Whether some deadline is at or before the moment of a call at `now`. A step is a reading of a
    /// deadline. Takes no memory.
    pub fn is_due<L: Ledger>(&self, now: u64, steps: &mut Steps<L>) -> bool
        ensures { result ≡ due self.now now }
    {
        self.queues.due(self.moment_after(now), steps)
    }

    /// Handles the deadlines that are due at a moment, which becomes the last one. Takes no memory.
    pub fn settle<L: Ledger>(&mut self, moment: u64, steps: &mut Steps<L>)
        requires { moment ≤ latest_moment }
        ensures { self.new ≡ at_moment self.old moment }
    {
        self.queues.expire(moment, steps);
        self.moment = moment;
    }

    /// Moves the moment `more` milliseconds ahead of the call's own, which only the system and the root may do. Handles
    /// the deadlines that are due at the call's own moment first, then those that are due by the new one. The answer
    /// gives the earliest deadline that is left, if there is one, and the moment. Refused by `AdminOnly`, and by
    /// `OverLimit` of `Moment` past 2^62 milliseconds. A step is a reading of a deadline. Takes no memory.
    pub fn advance<L: Ledger>(&mut self, by: Caller, more: u64, steps: &mut Steps<L>) -> Reply
        ensures { for_admin (at_moment self.old by.moment) by.uid (advance (at_moment self.old by.moment) more)
            ≡ (result, self.new) }
    {
        self.settle(by.moment, steps);
        if !Live::is_privileged(by.uid) {
            return Reply::Refused(Rule::AdminOnly);
        }
        match moment_ahead(by.moment, more) {
            None => Reply::Refused(Rule::OverLimit(Limit::Moment)),
            Some(moment) => self.advance_to(moment, steps),
        }
    }

    /// Moves the moment, and answers the earliest deadline that is then left.
    fn advance_to<L: Ledger>(&mut self, moment: u64, steps: &mut Steps<L>) -> Reply
        requires { moment ≤ latest_moment }
        ensures { advanced (at_moment self.old moment) ≡ (result, self.new) }
    {
        self.settle(moment, steps);
        Reply::Advanced {
            due: self.queues.earliest_deadline(steps),
            now: moment,
        }
    }

    /// The last moment, in milliseconds. Takes no memory.
    pub fn moment(&self) -> u64
        ensures { result ≡ self.now.moment }
    {
        self.moment
    }
}
