//! All live broadcasts, and sending one.
ghost use Rattle.std.specs.Prelude.{◌≡◌, ◌+◌, ◌≤◌, ◌<◌, ◌≢◌, false, length, Ok, Err, IsOk, IsSome, IsTrue, ◌↔◌, IfSome, IfOk, IfErr, OnOk, OnErr};
ghost use Rattle.am_model.specs.Broadcasts.{no_broadcasts, queue_of, is_head_due, due, earliest_deadline, expired};
ghost use Rattle.am_model.specs.Filters.{is_empty};
ghost use Rattle.am_model.specs.Sending.{live, in_turn, with_normal, with_last, with_ordered, with_sent, send, inbox};
ghost use Rattle.am_queue.specs.Sooner.{sooner};
ghost use Rattle.am_queue.specs.Taken.{refusal_of};

use crate::inbox::{SHOWN, first_by_number, push_item};
use crate::puts::{Last, put_normal, put_turn};
use crate::results::Results;
use crate::settling::span;
use am_queue_normal::{Begin, Normals};
use am_queue_ordered::{Counts, Queue};
use am_types::{Item, List, NoMemory, SendFault, Sending, Steps, drop_parts};
use std::alloc::{AllocError, Global};
use std::marker::Model;
use std::sync::ledger::Ledger;

/// The greatest moment that the calls take, in milliseconds: every deadline after it is still a number of 64 bits.
pub const LAST_MOMENT: u64 = 4_611_686_018_427_387_904;

/// The number of the last broadcast that can be sent.
pub const LAST_BROADCAST: u64 = 1_125_899_906_842_624;

/// How many live broadcasts a sender may have.
const MOST_LIVE: u32 = 64;

/// How many receivers a broadcast may have.
const MOST_RECEIVERS: usize = 1024;

/// All live broadcasts, and the next numbers. The calls take moments up to `LAST_MOMENT`: the manager
/// treats a later one as `LAST_MOMENT`.
pub struct Queues {
    alloc: Global,
    pub(crate) normals: Normals,
    pub(crate) foreground: Queue,
    pub(crate) background: Queue,
    /// Has room for the results of all broadcasts in the queues.
    pub(crate) results: Results,
    /// How many broadcasts of each sender are live.
    pub(crate) live: Counts,
    next_broadcast: u64,
    pub(crate) next_delivery: u64,
}

impl Drop for Queues {
    fn drop(self) {
        drop_parts!(self, Queues: alloc normals foreground background results live next_broadcast next_delivery);
    }
}

impl Model for Queues {
    ghost use Rattle.am_model.specs.Broadcasts.{Broadcasts};
    ghost use Rattle.am_queue.specs.Sound.{AreSound, all_of};

    ghost Value = { Broadcasts };

    ghost view = { λ q.
        all_of q.normals.normal q.foreground q.background q.results.list q.next_broadcast q.next_delivery };

    ghost invariant = { λ q. AreSound q.normals.end q.results.room q.live
        (all_of q.normals.normal q.foreground q.background q.results.list q.next_broadcast q.next_delivery) };
}

/// The sooner of two moments, if there is any.
fn sooner(one: Option<u64>, other: Option<u64>) -> Option<u64>
    ensures { result ≡ sooner one other }
{
    match (one, other) {
        (None, other) => other,
        (one, None) => one,
        (Some(one), Some(other)) => Some(one.min(other)),
    }
}

impl Queues {
    /// No broadcasts yet. Takes no memory.
    pub fn new(alloc: Global) -> Self
        ensures { result ≡ no_broadcasts }
    {
        Queues {
            alloc,
            normals: Normals::new(alloc),
            foreground: Queue::new(alloc),
            background: Queue::new(alloc),
            results: Results::new(alloc),
            live: Counts::new(alloc),
            next_broadcast: 1,
            next_delivery: 1,
        }
    }

    /// Whether there are numbers left for one more broadcast. Takes no memory.
    pub fn can_send(&self) -> bool
        ensures { IsTrue result ↔ (self.now.next_broadcast ≤ LAST_BROADCAST) }
    {
        self.next_broadcast <= LAST_BROADCAST
    }

    /// Whether some deadline is at most `now`; if none is, `expire` would change nothing. A step is a
    /// reading of a deadline. Takes no memory.
    pub fn due<L: Ledger>(&self, now: u64, steps: &mut Steps<L>) -> bool
        ensures due { result ≡ due self.now now }
        ensures calm { result ≡ false → expired self.now now ≡ self.now }
        ensures cost { steps.new ≤ steps.old + 3 }
    {
        self.is_head_due(true, now, steps)
            || self.is_head_due(false, now, steps)
            || self.normals.is_due(now, steps)
    }

    /// The earliest deadline, if there is one. A step is a reading of a deadline. Takes no memory.
    pub fn earliest_deadline<L: Ledger>(&self, steps: &mut Steps<L>) -> Option<u64>
        ensures earliest { result ≡ earliest_deadline self.now }
        ensures cost { steps.new ≤ steps.old + 3 }
    {
        let foreground = self.foreground.deadline(steps);
        let background = self.background.deadline(steps);
        let normal = self.normals.earliest_deadline(steps);
        sooner(sooner(foreground, background), normal)
    }

    /// Why a broadcast of the sender to this many receivers isn't sent.
    fn refusal(&self, sender: u32, receivers: usize) -> Option<SendFault>
        ensures { result ≡ refusal_of self.now sender receivers }
    {
        if self.live.get(sender) >= MOST_LIVE {
            return Some(SendFault::Full);
        }
        if receivers > MOST_RECEIVERS {
            return Some(SendFault::TooMany);
        }
        None
    }

    /// Uses up a number for a broadcast without receivers.
    fn pass_number(&mut self) -> u64
        requires { self.old.next_broadcast ≤ LAST_BROADCAST }
        ensures number { result ≡ self.old.next_broadcast }
        ensures passed { self.new ≡ record self.old { next_broadcast = self.old.next_broadcast + 1 } }
    {
        let number = self.next_broadcast;
        self.next_broadcast = number + 1;
        number
    }

    /// Sends a normal broadcast to some receivers.
    fn put_at_once(&mut self, sending: Sending) -> Result<u64, AllocError>
        requires broadcasts { self.old.next_broadcast ≤ LAST_BROADCAST }
        requires moment { sending.now ≤ LAST_MOMENT }
        requires not_full { live self.old sending.sender < 64 }
        requires some { is_empty sending.to ≡ false }
        requires few { length sending.to ≤ 1024 }
        ensures number { IfOk result (λ number. number ≡ self.old.next_broadcast) }
        ensures sent { OnOk result (self.new ≡ with_normal self.old sending) }
        ensures same { OnErr result (self.new ≡ self.old) }
    {
        let begin = Begin {
            number: self.next_broadcast,
            first: self.next_delivery,
            deadline: sending.now + span(sending.foreground),
        };
        let count = sending.to.as_slice().len() as u64;
        match put_normal(
            self.alloc,
            &mut self.normals,
            &mut self.live,
            begin,
            sending,
        ) {
            Ok(()) => {
                self.next_broadcast = begin.number + 1;
                self.next_delivery = begin.first + count;
                Ok(begin.number)
            }
            Err(error) => Err(error),
        }
    }

    /// Puts an ordered broadcast at the end of one of the two queues.
    fn put_last(&mut self, foreground: bool, sending: Sending) -> Result<u64, AllocError>
        requires broadcasts { self.old.next_broadcast ≤ LAST_BROADCAST }
        requires ordered { IsSome sending.ordered }
        requires not_full { live self.old sending.sender < 64 }
        requires few { length sending.to ≤ 1024 }
        ensures number { IfOk result (λ number. number ≡ self.old.next_broadcast) }
        ensures put { OnOk result (IfSome sending.ordered (λ ordered.
            self.new ≡ with_last foreground (in_turn self.old.next_broadcast sending ordered) self.old)) }
        ensures same { OnErr result (self.new ≡ self.old) }
    {
        let number = self.next_broadcast;
        let more = self.foreground.len() + self.background.len() + 1;
        let last = Last {
            alloc: self.alloc,
            number,
            more,
        };
        let (results, live) = (&mut self.results, &mut self.live);
        if foreground {
            put_turn(last, &mut self.foreground, results, live, sending)?;
            self.next_broadcast = number + 1;
            Ok(number)
        } else {
            put_turn(last, &mut self.background, results, live, sending)?;
            self.next_broadcast = number + 1;
            Ok(number)
        }
    }

    /// Sends an ordered broadcast.
    fn put_in_turn(&mut self, sending: Sending) -> Result<u64, AllocError>
        requires broadcasts { self.old.next_broadcast ≤ LAST_BROADCAST }
        requires moment { sending.now ≤ LAST_MOMENT }
        requires ordered { IsSome sending.ordered }
        requires not_full { live self.old sending.sender < 64 }
        requires few { length sending.to ≤ 1024 }
        ensures number { IfOk result (λ number. number ≡ self.old.next_broadcast) }
        ensures sent { OnOk result (IfSome sending.ordered (λ ordered.
            self.new ≡ with_ordered self.old sending ordered)) }
        ensures same { OnErr result (self.new ≡ self.old) }
    {
        let (foreground, now) = (sending.foreground, sending.now);
        let number = self.put_last(foreground, sending)?;
        self.settle(foreground, now);
        Ok(number)
    }

    /// Sends a broadcast that isn't refused.
    fn put(&mut self, sending: Sending) -> Result<u64, AllocError>
        requires broadcasts { self.old.next_broadcast ≤ LAST_BROADCAST }
        requires moment { sending.now ≤ LAST_MOMENT }
        requires not_full { live self.old sending.sender < 64 }
        requires few { length sending.to ≤ 1024 }
        ensures number { IfOk result (λ number. number ≡ self.old.next_broadcast) }
        ensures sent { OnOk result (self.new ≡ with_sent self.old sending sending.ordered) }
        ensures same { OnErr result (self.new ≡ self.old) }
    {
        if sending.ordered.is_some() {
            return self.put_in_turn(sending);
        }
        if sending.to.as_slice().is_empty() {
            drop(sending);
            return Ok(self.pass_number());
        }
        self.put_at_once(sending)
    }

    /// Sends a broadcast, and returns its number: `Full` if its sender has 64 live broadcasts,
    /// otherwise `TooMany` if it has more than 1,024 receivers. It takes all memory that the
    /// broadcast's course needs. After a refusal, or if memory runs out, nothing has changed. The moment is
    /// at most `LAST_MOMENT`.
    pub fn send(&mut self, call: Sending) -> Result<u64, SendFault>
        requires broadcasts { self.old.next_broadcast ≤ LAST_BROADCAST }
        requires moment { call.now ≤ LAST_MOMENT }
        ensures sent { IfOk result (λ number. send self.old call ≡ Ok (number, self.new)) }
        ensures refused { IfErr result (λ fault. fault ≢ SendFault.NoMemory → send self.old call ≡ Err fault) }
        ensures no_memory { result ≡ Err SendFault.NoMemory → IsOk (send self.old call) }
        ensures same { OnErr result (self.new ≡ self.old) }
    {
        match self.refusal(call.sender, call.to.as_slice().len()) {
            Some(fault) => {
                drop(call);
                Err(fault)
            }
            None => match self.put(call) {
                Ok(number) => Ok(number),
                Err(_) => Err(SendFault::NoMemory),
            },
        }
    }

    /// The first 64 deliveries and results of a uid by rising number. An ordered delivery has the outcome
    /// so far.
    pub fn inbox(&self, uid: u32) -> Result<List<Item>, NoMemory>
        ensures { IfOk result (λ items. items ≡ inbox self.now uid) }
    {
        let mut items = self.normals.items(self.alloc, uid, SHOWN)?;
        push_item(&mut items, self.foreground.item(uid)?)?;
        push_item(&mut items, self.background.item(uid)?)?;
        self.results.push_items(uid, &mut items)?;
        Ok(List::new(first_by_number(self.alloc, items)?))
    }

    /// Equal queues, which also hold the memory for the course of their broadcasts.
    pub fn copy(&self) -> Result<Self, NoMemory>
        ensures { IfOk result (λ copy. copy ≡ self.now) }
    {
        let waiting = self.foreground.len() + self.background.len();
        Ok(Queues {
            alloc: self.alloc,
            normals: self.normals.copy()?,
            foreground: self.foreground.copy()?,
            background: self.background.copy()?,
            results: self.results.copy(waiting)?,
            live: self.live.copy()?,
            next_broadcast: self.next_broadcast,
            next_delivery: self.next_delivery,
        })
    }

    /// Whether the head of one of the two queues has a delivery that is due.
    pub(crate) fn is_head_due<L: Ledger>(
        &self,
        foreground: bool,
        now: u64,
        steps: &mut Steps<L>,
    ) -> bool
        ensures due { result ≡ is_head_due now (queue_of foreground self.now) }
        ensures cost { steps.new ≤ steps.old + 1 }
    {
        if foreground {
            self.foreground.is_due(now, steps)
        } else {
            self.background.is_due(now, steps)
        }
    }
}
