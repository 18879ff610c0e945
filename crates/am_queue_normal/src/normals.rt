//! All normal broadcasts.
ghost use Rattle.std.specs.Prelude.{◌≡◌, ℕ, ◌+◌, ◌^◌, ◌<◌, ◌≤◌, not, ◌==◌, false, if◌then◌else◌, [], ◌∷◌, ◌++◌, length, take, IfOk, IfSome, IsSome, MatchOption, OnOk, OnErr};
ghost use Rattle.std.specs.Option.{option_map};
ghost use Rattle.am_model.specs.Broadcasts.{earliest, normal_deadlines, normals_keeping, span};
ghost use Rattle.am_model.specs.Filters.{is_empty};
ghost use Rattle.am_model.specs.Sending.{at_once, held_in_normals};
ghost use Rattle.am_queue_ordered.specs.Counts.{Covers, Follows, count_of, one_for};
ghost use Rattle.am_queue_ordered.specs.Struck.{strikes};
ghost use Rattle.am_queue_normal.specs.Kept.{AllLive, AllPass, Fails, PassBelow, Rise, at_once_by, deliveries_in, is_early, is_other, is_spared, items_of, normals_of, some_due};

use crate::deliveries::Deliveries;
use crate::delivery::Broadcast;
use am_queue_ordered::{Counts, Struck};
use am_types::{Item, Sending, Steps};
use std::alloc::{AllocError, Global};
use std::marker::Model;
use std::sync::Arc;
use std::sync::ledger::Ledger;

/// Where the deliveries of a broadcast begin.
#[derive(Clone, Copy)]
pub struct Begin {
    pub number: u64,
    /// The number of the first delivery.
    pub first: u64,
    pub deadline: u64,
}

/// The normal broadcasts with the deliveries that aren't finished.
#[derive(Drop)]
pub struct Normals {
    deliveries: Deliveries,
    /// A number above the numbers of all deliveries.
    end: u64,
}

impl Model for Normals {
    ghost use Rattle.am_queue_normal.specs.Kept.{Kept};
    ghost use Rattle.am_queue_normal.specs.Posted.{AreInOrder, grouped};

    ghost Value = { Kept };

    ghost view = { λ n. record { normal = grouped n.deliveries; end = n.end } };

    ghost invariant = { λ n. AreInOrder n.end n.deliveries };
}

/// Lowers a sender's number if no other delivery of its broadcast is left.
fn uncount(others: bool, sender: u32, live: &mut Counts)
    requires { others ≡ false → 0 < count_of live.old sender }
    ensures { (uid : ℕ) → count_of live.new uid + (if others then 0 else one_for sender uid) ≡ count_of live.old uid }
{
    if !others {
        live.lower(sender);
    }
}

impl Normals {
    /// No broadcasts. Takes no memory.
    pub fn new(alloc: Global) -> Self
        ensures { result ≡ record { normal = []; end = 0 } }
    {
        Normals {
            deliveries: Deliveries::new(alloc),
            end: 0,
        }
    }

    /// The uid that the delivery with this number is for, if it isn't finished. Takes no memory.
    pub fn holder(&self, number: u64) -> Option<u32>
        ensures held { held_in_normals number self.now.normal ≡ option_map at_once_by result }
        ensures live { AllLive self.now.normal }
    {
        match self.deliveries.get(number) {
            None => None,
            Some(delivery) => Some(delivery.spot.uid),
        }
    }

    /// Whether some delivery is due. A step is a reading of a deadline. Takes no memory.
    pub fn is_due<L: Ledger>(&self, now: u64, steps: &mut Steps<L>) -> bool
        ensures due { result ≡ some_due self.now.normal now }
        ensures early { result ≡ false → AllPass (is_early now) self.now.normal }
        ensures cost { steps.new ≤ steps.old + 1 }
    {
        self.deliveries.first_late(now, steps).is_some()
    }

    /// The earliest deadline of a delivery, if there is one. A step is a reading of a deadline. Takes no memory.
    pub fn earliest_deadline<L: Ledger>(&self, steps: &mut Steps<L>) -> Option<u64>
        ensures earliest { result ≡ earliest (normal_deadlines self.now.normal) }
        ensures cost { steps.new ≤ steps.old + 1 }
    {
        self.deliveries.soonest(steps)
    }

    /// Finishes the delivery with this number. Takes no memory.
    pub fn finish(&mut self, number: u64, live: &mut Counts)
        requires held { IsSome (held_in_normals number self.old.normal) }
        requires counted { Covers live.old (normals_of self.old.normal) }
        ensures normal { self.new ≡ record self.old { normal = normals_keeping (is_other number) self.old.normal } }
        ensures live { Follows live.old live.new (normals_of self.old.normal) (normals_of self.new.normal) }
        ensures fewer { deliveries_in self.new.normal + 1 ≤ deliveries_in self.old.normal }
    {
        let Some(delivery) = self.deliveries.take(number) else {
            return;
        };
        let (first, end, sender) = (delivery.first(), delivery.end(), delivery.sender());
        drop(delivery);
        let others = self.deliveries.is_any_between(first, end);
        uncount(others, sender, live);
    }

    /// The number of a delivery that is due. A step is a reading of a deadline.
    fn next_late<L: Ledger>(&self, now: u64, steps: &mut Steps<L>) -> Option<u64>
        ensures late { MatchOption result (AllPass (is_early now) self.now.normal)
            (Fails (is_early now) self.now.normal) }
        ensures cost { steps.new ≤ steps.old + 1 }
    {
        self.deliveries.first_late(now, steps)
    }

    /// Removes the deliveries that are due. A step is a reading of a deadline. Takes no memory.
    pub fn expire<L: Ledger>(&mut self, now: u64, live: &mut Counts, steps: &mut Steps<L>)
        requires { Covers live.old (normals_of self.old.normal) }
        ensures normal { self.new ≡ record self.old { normal = normals_keeping (is_early now) self.old.normal } }
        ensures live { Follows live.old live.new (normals_of self.old.normal) (normals_of self.new.normal) }
        ensures cost { steps.new + deliveries_in self.new.normal ≤ steps.old + 1 + deliveries_in self.old.normal }
    {
        while let Some(number) = self.next_late(now, steps) {
            self.finish(number, live);
        }
    }

    /// The least number, from a given one on, of a delivery whose receiver is struck, if none has a lower number.
    fn next_struck(&self, struck: &Struck, from: u64) -> Option<u64>
        requires { PassBelow (is_spared (strikes struck.now)) from self.now.normal }
        ensures all { MatchOption result (AllPass (is_spared (strikes struck.now)) self.now.normal)
            (Fails (is_spared (strikes struck.now)) self.now.normal) }
        ensures below { IfSome result (λ number.
            PassBelow (is_spared (strikes struck.now)) number (normals_keeping (is_other number) self.now.normal)) }
    {
        self.deliveries.next_struck(struck, from)
    }

    /// Strikes receivers. Takes no memory.
    pub fn strike(&mut self, struck: &Struck, live: &mut Counts)
        requires { Covers live.old (normals_of self.old.normal) }
        ensures normal { self.new
            ≡ record self.old { normal = normals_keeping (is_spared (strikes struck.now)) self.old.normal } }
        ensures live { Follows live.old live.new (normals_of self.old.normal) (normals_of self.new.normal) }
    {
        let mut from = 0;
        while let Some(number) = self.next_struck(struck, from) {
            self.finish(number, live);
            from = number;
        }
    }

    /// Sends a normal broadcast, whose delivery numbers follow the earlier ones. If memory runs out, nothing changes.
    pub fn add(&mut self, alloc: Global, begin: Begin, sending: Sending) -> Result<(), AllocError>
        requires end { self.old.end ≤ begin.first }
        requires some { is_empty sending.to ≡ false }
        requires room { begin.first + length sending.to < 2 ^ 64 }
        requires deadline { begin.deadline ≡ sending.now + span sending.foreground }
        ensures ok { OnOk result (self.new ≡ record {
          normal = self.old.normal ++ at_once begin.number begin.first sending ∷ [];
          end = begin.first + length sending.to;
        }) }
        ensures err { OnErr result (self.new ≡ self.old) }
    {
        let Sending {
            sender,
            now: _,
            foreground: _,
            no_abort: _,
            intent,
            to,
            ordered,
        } = sending;
        drop(ordered);
        let end = begin.first + to.as_slice().len() as u64;
        let sent = Broadcast {
            number: begin.number,
            sender,
            intent,
            first: begin.first,
            end,
        };
        let sent = Arc::new(alloc, sent)?;
        self.deliveries
            .put_all(&sent, begin.deadline, to.as_slice())?;
        self.end = end;
        Ok(())
    }

    /// The first deliveries to a uid, as items by rising number.
    pub fn items(&self, alloc: Global, uid: u32, most: usize) -> Result<Vec<Item>, AllocError>
        ensures first { IfOk result (λ items. items.items ≡ take most (items_of uid self.now.normal)) }
        ensures rise { Rise 0 (items_of uid self.now.normal) }
    {
        self.deliveries.items(alloc, self.end, uid, most)
    }

    /// Equal broadcasts, which share what was sent.
    pub fn copy(&self) -> Result<Self, AllocError>
        ensures { IfOk result (λ copy. copy ≡ self.now) }
    {
        Ok(Normals {
            deliveries: self.deliveries.copy()?,
            end: self.end,
        })
    }
}
