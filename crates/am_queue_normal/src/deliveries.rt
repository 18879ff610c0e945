//! Deliveries by number, with their order by deadline and by uid.
ghost use Rattle.std.specs.Prelude.{◌≡◌, ℕ, ◌+◌, ◌^◌, ◌<◌, ◌≤◌, ◌&&◌, ◌||◌, not, true, false, [], ◌++◌, None, Some, filter, length, map, take, IfOk, IfSome, OnOk, OnErr, MatchOption};
ghost use Rattle.std.specs.List.{list_any};
ghost use Rattle.std.specs.Map.{remove_entry};
ghost use Rattle.std.specs.Option.{option_copied};
ghost use Rattle.std.specs.Ordering.{nat_cmp};
ghost use Rattle.std.specs.BTreeMap.{insert_entry, is_at};
ghost use Rattle.am_queue_ordered.specs.Struck.{strikes};
ghost use Rattle.am_queue_normal.specs.Pairs.{IsNext, NoneFrom, has, is_same};
ghost use Rattle.am_queue_normal.specs.Posted.{AreInOrder, IsSoonest, NoneLate, is_between, is_late, is_struck, is_to, item_of, items_at, passes_at, posted_as, posted_at, posted_to, without};

use crate::delivery::{Broadcast, Delivery};
use crate::pairs::Pairs;
use am_queue_ordered::Struck;
use am_types::{Item, Spot, Steps};
use std::alloc::{AllocError, Global};
use std::collections::BTreeMap;
use std::marker::Model;
use std::sync::Arc;
use std::sync::ledger::Ledger;

/// Deliveries by number.
#[derive(Drop)]
pub(crate) struct Deliveries {
    by_number: BTreeMap<u64, Delivery>,
    /// The deadline and the number of each.
    by_deadline: Pairs,
    /// The uid and the number of each.
    by_uid: Pairs,
}

impl Model for Deliveries {
    ghost use Rattle.std.specs.Prelude.{ℕ, List};
    ghost use Rattle.am_queue_normal.specs.Posted.{AreIndexed, Posted};

    ghost Value = { List (ℕ × Posted) };

    ghost view = { λ d. d.by_number.entries };

    ghost invariant = { λ d. AreIndexed d.by_deadline d.by_uid d.by_number.entries };
}

/// Adds a delivery's number under its deadline and under its uid. If memory runs out, nothing changes.
fn list(
    by_deadline: &mut Pairs,
    by_uid: &mut Pairs,
    number: u64,
    delivery: &Delivery,
) -> Result<(), AllocError>
    requires new { has by_deadline.old delivery.now.deadline number ≡ false }
    ensures deadlines { OnOk result ((key' number' : ℕ) → has by_deadline.new key' number'
        ≡ (is_same delivery.now.deadline number key' number' || has by_deadline.old key' number')) }
    ensures uids { OnOk result ((key' number' : ℕ) → has by_uid.new key' number'
        ≡ (is_same delivery.now.spot.uid number key' number' || has by_uid.old key' number')) }
    ensures same_deadlines { OnErr result ((key' number' : ℕ)
        → has by_deadline.new key' number' ≡ has by_deadline.old key' number') }
    ensures same_uids { OnErr result ((key' number' : ℕ) → has by_uid.new key' number' ≡ has by_uid.old key' number') }
{
    by_deadline.add(delivery.deadline, number)?;
    match by_uid.add(u64::from(delivery.spot.uid), number) {
        Ok(()) => Ok(()),
        Err(error) => {
            by_deadline.remove(delivery.deadline, number);
            Err(error)
        }
    }
}

impl Deliveries {
    /// No deliveries. Takes no memory.
    pub(crate) fn new(alloc: Global) -> Self
        ensures { result ≡ [] }
    {
        Deliveries {
            by_number: BTreeMap::new(alloc),
            by_deadline: Pairs::new(alloc),
            by_uid: Pairs::new(alloc),
        }
    }

    /// The delivery with this number. Takes no memory.
    pub(crate) fn get(&self, number: u64) -> Option<&Delivery>
        ensures { option_copied result ≡ posted_at number self.now }
    {
        self.by_number.get(&number)
    }

    /// Adds a delivery under an unused number. If memory runs out, nothing changes.
    pub(crate) fn put(&mut self, number: u64, delivery: Delivery) -> Result<(), AllocError>
        requires { posted_at number self.old ≡ None }
        ensures ok { OnOk result (self.new ≡ insert_entry nat_cmp self.old number delivery) }
        ensures err { OnErr result (self.new ≡ self.old) }
    {
        let (deadline, uid) = (delivery.deadline, u64::from(delivery.spot.uid));
        list(&mut self.by_deadline, &mut self.by_uid, number, &delivery)?;
        match self.by_number.insert(number, delivery) {
            Ok(_) => Ok(()),
            Err(failed) => {
                self.by_deadline.remove(deadline, number);
                self.by_uid.remove(uid, number);
                drop(failed);
                Err(AllocError)
            }
        }
    }

    /// Removes the delivery with this number. Takes no memory.
    pub(crate) fn take(&mut self, number: u64) -> Option<Delivery>
        ensures taken { result ≡ posted_at number self.old }
        ensures left { self.new ≡ remove_entry (is_at (nat_cmp number)) self.old }
    {
        let delivery = self.by_number.remove(&number)?;
        self.by_deadline.remove(delivery.deadline, number);
        self.by_uid.remove(u64::from(delivery.spot.uid), number);
        Some(delivery)
    }

    /// The number of the delivery with the soonest deadline, if it is due. A step is a reading of that
    /// deadline; there is no other. Takes no memory.
    pub(crate) fn first_late<L: Ledger>(&self, now: u64, steps: &mut Steps<L>) -> Option<u64>
        ensures late { MatchOption result ((number : ℕ) → passes_at (is_late now) self.now number ≡ false)
            (λ number. passes_at (is_late now) self.now number ≡ true) }
        ensures cost { steps.new ≤ steps.old + 1 }
    {
        match self.by_deadline.first() {
            None => None,
            Some((deadline, number)) => {
                steps.tick();
                if deadline <= now { Some(number) } else { None }
            }
        }
    }

    /// The soonest deadline of a delivery. A step is a reading of that deadline; there is no other. Takes no
    /// memory.
    pub(crate) fn soonest<L: Ledger>(&self, steps: &mut Steps<L>) -> Option<u64>
        ensures soonest { MatchOption result (NoneLate self.now) (IsSoonest self.now) }
        ensures cost { steps.new ≤ steps.old + 1 }
    {
        match self.by_deadline.first() {
            None => None,
            Some((deadline, _)) => {
                steps.tick();
                Some(deadline)
            }
        }
    }

    /// The least number, from a given one on, of a delivery to a uid. Takes no memory.
    pub(crate) fn next_to(&self, uid: u32, from: u64) -> Option<u64>
        ensures { MatchOption result (NoneFrom (passes_at (is_to uid) self.now) from)
            (IsNext (passes_at (is_to uid) self.now) from) }
    {
        self.by_uid.next(u64::from(uid), from)
    }

    /// The least number, from a given one on, of a delivery whose receiver is struck. Takes no memory.
    pub(crate) fn next_struck(&self, struck: &Struck, from: u64) -> Option<u64>
        ensures { MatchOption result (NoneFrom (passes_at (is_struck (strikes struck.now)) self.now) from)
            (IsNext (passes_at (is_struck (strikes struck.now)) self.now) from) }
    {
        for (number, delivery) in self.by_number.range(from..) {
            if struck.strikes(&delivery.spot) {
                return Some(*number);
            }
        }
        None
    }

    /// Whether there is a delivery whose number is at least the first number and below the other. Takes no memory.
    pub(crate) fn is_any_between(&self, first: u64, end: u64) -> bool
        ensures { result ≡ list_any (is_between first end) self.now }
    {
        match self.by_number.range(first..).next() {
            None => false,
            Some((number, _)) => *number < end,
        }
    }

    /// Adds the delivery of what was sent to one receiver. If memory runs out, nothing changes.
    fn put_one(
        &mut self,
        number: u64,
        sent: &Arc<Broadcast, Global>,
        spot: &Spot,
        deadline: u64,
    ) -> Result<(), AllocError>
        requires { posted_at number self.old ≡ None }
        ensures ok { OnOk result (self.new
            ≡ insert_entry nat_cmp self.old number (posted_as sent.now.value deadline spot.now)) }
        ensures err { OnErr result (self.new ≡ self.old) }
    {
        let delivery = Delivery::new(sent, spot, deadline)?;
        self.put(number, delivery)
    }

    /// Removes this many deliveries, from one number on.
    fn take_back(&mut self, first: u64, count: u64)
        requires { first + count < 2 ^ 64 }
        ensures { self.new ≡ without first count self.old }
    {
        for place in 0..count {
            drop(self.take(first + place));
        }
    }

    /// Adds the deliveries of what was sent to some receivers after all others. If memory runs out,
    /// nothing changes.
    pub(crate) fn put_all(
        &mut self,
        sent: &Arc<Broadcast, Global>,
        deadline: u64,
        to: &[Spot],
    ) -> Result<(), AllocError>
        requires order { AreInOrder sent.now.value.first self.old }
        requires room { sent.now.value.first + length to.now < 2 ^ 64 }
        ensures ok { OnOk result (self.new
            ≡ self.old ++ posted_to sent.now.value deadline sent.now.value.first to.now) }
        ensures err { OnErr result (self.new ≡ self.old) }
    {
        let first = sent.first;
        for (place, spot) in to.iter().enumerate() {
            match self.put_one(first + place as u64, sent, spot, deadline) {
                Ok(()) => {}
                Err(error) => {
                    self.take_back(first, place as u64);
                    return Err(error);
                }
            }
        }
        Ok(())
    }

    /// Adds the delivery with this number, if there is one, as an item after the others.
    fn push_item(&self, number: u64, items: &mut Vec<Item>) -> Result<(), AllocError>
        ensures { OnOk result (items.new.items ≡ items.old.items ++ items_at number (posted_at number self.now)) }
    {
        match self.get(number) {
            None => Ok(()),
            Some(delivery) => {
                items.push(delivery.item(number)?)?;
                Ok(())
            }
        }
    }

    /// The first deliveries to a uid, as items by rising number. All numbers are below an end.
    pub(crate) fn items(
        &self,
        alloc: Global,
        end: u64,
        uid: u32,
        most: usize,
    ) -> Result<Vec<Item>, AllocError>
        requires { AreInOrder end self.now }
        ensures { IfOk result (λ items. items.items
            ≡ take most (map item_of (filter (λ entry. is_to uid entry.1) self.now))) }
    {
        let mut items = Vec::new(alloc);
        let mut from = 0;
        while items.len() < most {
            match self.next_to(uid, from) {
                None => return Ok(items),
                Some(number) => {
                    self.push_item(number, &mut items)?;
                    from = number + 1;
                }
            }
        }
        Ok(items)
    }

    /// Equal deliveries, which share what was sent.
    pub(crate) fn copy(&self) -> Result<Self, AllocError>
        ensures { IfOk result (λ copy. copy ≡ self.now) }
    {
        Ok(Deliveries {
            by_number: self.by_number.clone()?,
            by_deadline: self.by_deadline.copy()?,
            by_uid: self.by_uid.copy()?,
        })
    }
}
