//! One ordered broadcast.
ghost use Rattle.std.specs.Prelude.{◌≡◌, ◌+◌, ◌≤◌, ◌<◌, [], ◌∷◌, IsSome, IfSome, IfOk, IsTrue, Some, true, vec_len, if◌then◌else◌, is_some, slice_get};
ghost use Rattle.std.specs.Option.{option_to_list, option_map};
ghost use Rattle.am_model.specs.Broadcasts.{outcome_of, outcome_after, is_over, is_late, current_deadline, earliest, result_of, turn};
ghost use Rattle.am_model.specs.Sending.{in_turn, is_current, held_by, strike, strike_rest, turn_items, unwanted};
ghost use Rattle.am_queue_ordered.specs.Turns.{set_by_past, strikes_current, in_order};
ghost use Rattle.am_queue_ordered.specs.Doings.{doing_of};
ghost use Rattle.am_queue_ordered.specs.Struck.{strikes};

use crate::{Current, Doing, Final, Past, Struck};
use am_types::{Intent, Item, ItemKind, Outcome, Sending, Spot, Steps};
use std::alloc::{AllocError, Global};
use std::collections::VecDeque;
use std::marker::Model;
use std::sync::Arc;
use std::sync::ledger::Ledger;
use std::vec::VecCloneMethods;

/// An ordered broadcast in a queue. It already holds the memory for everything that its receivers do.
#[derive(Drop)]
pub struct InTurn {
    number: u64,
    sender: u32,
    /// Shared with its copies.
    intent: Arc<Intent, Global>,
    no_abort: bool,
    initial: Outcome,
    wanted: bool,
    /// Has room for the receivers that are left.
    past: Vec<Past>,
    rest: VecDeque<Spot>,
    current: Option<Current>,
    /// Which receiver set the outcome last.
    last: Option<usize>,
    /// An abort ended it.
    aborted: bool,
}

impl Model for InTurn {
    ghost use Rattle.std.specs.Prelude.{◌+◌, ◌≤◌, length, vec_capacity};
    ghost use Rattle.am_model.specs.Broadcasts.{InTurn};
    ghost use Rattle.am_queue_ordered.specs.Turns.{IsMarked};

    ghost Value = { InTurn };

    ghost view = { λ t. record {
      number = t.number;
      sender = t.sender;
      intent = t.intent.value;
      no_abort = t.no_abort;
      initial = t.initial;
      wanted = t.wanted;
      past = t.past.items;
      rest = t.rest.items;
      current = t.current;
    } };

    ghost invariant = { λ t. (length t.past.items + length t.rest.items ≤ vec_capacity t.past)
        × IsMarked (view t) t.last t.aborted };
}

fn waiting(alloc: Global, to: &[Spot]) -> Result<VecDeque<Spot>, AllocError>
    ensures { IfOk result (λ rest. rest.items ≡ to.now) }
{
    let mut copy = Vec::new(alloc);
    VecCloneMethods::extend_from_slice(&mut copy, to)?;
    Ok(VecDeque::from_vec(copy))
}

/// The place of the last receiver that set the outcome, after one more receiver.
fn last_after(before: Option<usize>, sets: bool, place: usize) -> Option<usize>
    ensures { result ≡ (if sets then Some place else before) }
{
    if sets { Some(place) } else { before }
}

/// The outcome that the receiver at a place set, or the initial one.
fn set_at<'a>(past: &'a [Past], place: usize, initial: &'a Outcome) -> &'a Outcome
    ensures { result.now ≡ outcome_after initial.now (set_by_past (slice_get past.now place)) }
{
    match past.get(place) {
        None => initial,
        Some(past) => match past.outcome() {
            None => initial,
            Some(outcome) => outcome,
        },
    }
}

/// Takes out the outcome that the receiver at a place set, or the initial one.
fn taken_at(mut past: Vec<Past>, place: usize, initial: Outcome) -> Outcome
    requires { place < vec_len past }
    ensures { result ≡ outcome_after initial (set_by_past (slice_get past.items place)) }
{
    let past = past.swap_remove(place);
    match past.into_outcome() {
        None => initial,
        Some(outcome) => outcome,
    }
}

impl InTurn {
    /// An ordered broadcast before its first delivery.
    pub fn new(alloc: Global, number: u64, sending: Sending) -> Result<Self, AllocError>
        requires { IsSome sending.ordered }
        ensures { IfOk result (λ sent. IfSome sending.ordered (λ ordered. sent ≡ in_turn number sending ordered)) }
    {
        let Sending {
            sender,
            now: _,
            foreground: _,
            no_abort,
            intent,
            to,
            ordered,
        } = sending;
        let ordered = ordered.unwrap();
        let rest = waiting(alloc, to.as_slice())?;
        let past = Vec::with_capacity(alloc, rest.len())?;
        let intent = Arc::new(alloc, intent)?;
        Ok(InTurn {
            number,
            sender,
            intent,
            no_abort,
            initial: ordered.initial,
            wanted: ordered.wanted,
            past,
            rest,
            current: None,
            last: None,
            aborted: false,
        })
    }

    /// Whether the broadcast has ended. Takes no memory.
    pub fn is_over(&self) -> bool
        ensures { result ≡ is_over self.now }
    {
        self.rest.is_empty() || self.aborted
    }

    /// Records what the first remaining receiver did, and removes its delivery. Takes no memory.
    pub fn turn(&mut self, doing: Doing)
        ensures { self.new ≡ turn (doing_of doing) self.old }
    {
        self.current = None;
        if let Some(spot) = self.rest.pop_front() {
            let past = Past::new(spot, doing);
            let sets = past.sets(self.aborted);
            self.last = last_after(self.last, sets, self.past.len());
            self.aborted = past.ends(self.aborted, self.no_abort);
            self.past.push_reserved(past);
        }
    }

    /// The outcome so far. Takes no memory.
    pub fn outcome(&self) -> &Outcome
        ensures { result.now ≡ outcome_of self.now }
    {
        let initial = &self.initial;
        match self.last {
            None => initial,
            Some(place) => set_at(&self.past, place, initial),
        }
    }

    /// Whether the sender wants the result. Takes no memory.
    pub fn is_wanted(&self) -> bool
        ensures { result ≡ self.now.wanted }
    {
        self.wanted
    }

    /// The result that it leaves, under a delivery number. Takes no memory.
    pub fn into_final(self, delivery: u64) -> Final
        requires { self.wanted ≡ true }
        ensures { result_of delivery self ≡ result ∷ [] }
    {
        let InTurn {
            number,
            sender,
            intent,
            no_abort: _,
            initial,
            wanted: _,
            past,
            rest,
            current,
            last,
            aborted: _,
        } = self;
        drop(intent);
        drop(rest);
        drop(current);
        let outcome = match last {
            None => {
                drop(past);
                initial
            }
            Some(place) => taken_at(past, place, initial),
        };
        Final::new(delivery, number, sender, outcome)
    }

    /// Gives the first remaining receiver its delivery. Takes no memory.
    pub fn begin(&mut self, number: u64, deadline: u64)
        ensures { self.new ≡ record self.old { current = Some (record { number = number; deadline = deadline }) } }
    {
        self.current = Some(Current::new(number, deadline));
    }

    /// Whether a receiver currently has a delivery. Takes no memory.
    pub fn has_delivery(&self) -> bool
        ensures { result ≡ is_some self.now.current }
    {
        self.current.is_some()
    }

    /// Whether the broadcast has a delivery with this number. Takes no memory.
    pub fn is_current(&self, number: u64) -> bool
        ensures { result ≡ is_current number self.now.current }
    {
        match &self.current {
            None => false,
            Some(current) => current.number() == number,
        }
    }

    /// Whether the broadcast has a delivery that is due. A step is a reading of its deadline. Takes no memory.
    pub fn is_late<L: Ledger>(&self, now: u64, steps: &mut Steps<L>) -> bool
        ensures late { result ≡ is_late now self.now.current }
        ensures cost { steps.new ≤ steps.old + 1 }
    {
        match &self.current {
            None => false,
            Some(current) => current.is_late(now, steps),
        }
    }

    /// The deadline of the broadcast's delivery, if it has one. A step is a reading of it. Takes no memory.
    pub fn deadline<L: Ledger>(&self, steps: &mut Steps<L>) -> Option<u64>
        ensures deadline { result ≡ earliest (current_deadline self.now.current) }
        ensures cost { steps.new ≤ steps.old + 1 }
    {
        match &self.current {
            None => None,
            Some(current) => Some(current.deadline(steps)),
        }
    }

    /// The uid of the first remaining receiver. Takes no memory.
    pub fn holder(&self) -> Option<u32>
        ensures { held_by self.now.rest ≡ option_map in_order result }
    {
        match self.rest.front() {
            None => None,
            Some(spot) => Some(spot.uid),
        }
    }

    /// The broadcast's delivery as an item of a uid's inbox, if it is to that uid.
    pub fn item(&self, uid: u32) -> Result<Option<Item>, AllocError>
        ensures { IfOk result (λ item. option_to_list item ≡ turn_items uid self.now) }
    {
        let Some(spot) = self.rest.front() else {
            return Ok(None);
        };
        let Some(current) = &self.current else {
            return Ok(None);
        };
        if spot.uid != uid {
            return Ok(None);
        }
        Ok(Some(Item {
            delivery: current.number(),
            broadcast: self.number,
            what: ItemKind::InOrder {
                aim: spot.aim.clone()?,
                intent: (*self.intent).clone()?,
                outcome: self.outcome().clone()?,
            },
        }))
    }

    /// If the sender is this uid, it no longer wants the result. Takes no memory.
    pub fn unwant(&mut self, uid: u32)
        ensures { self.new ≡ unwanted uid self.old }
    {
        if self.sender == uid {
            self.wanted = false;
        }
    }

    /// Its sender. Takes no memory.
    pub fn sender(&self) -> u32
        ensures { result ≡ self.now.sender }
    {
        self.sender
    }

    /// Whether the receiver that has the broadcast's delivery is struck.
    fn is_current_struck(&self, struck: &Struck) -> bool
        ensures { result ≡ strikes_current (strikes struck.now) self.now.rest self.now.current }
    {
        if self.current.is_none() {
            return false;
        }
        match self.rest.front() {
            None => false,
            Some(spot) => struck.strikes(spot),
        }
    }

    /// Removes the struck receivers from the remaining ones.
    fn strike_rest(&mut self, struck: &Struck)
        ensures { self.new ≡ strike_rest (strikes struck.now) self.old }
    {
        self.rest.retain(|spot| !struck.strikes(spot));
    }

    /// Strikes receivers; a struck receiver that has its delivery counts as gone. Takes no memory.
    pub fn strike(&mut self, struck: &Struck)
        ensures { self.new ≡ strike (strikes struck.now) self.old }
    {
        if self.is_current_struck(struck) {
            self.turn(Doing::Gone);
        }
        self.strike_rest(struck);
    }
}

/// An equal broadcast, which also holds the memory for what its receivers do.
impl Clone for InTurn {
    ghost is_clone = { λ x y. y ≡ x };

    fn clone(&self) -> Result<InTurn, AllocError> {
        let rest = self.rest.clone()?;
        let mut past = self.past.clone()?;
        past.reserve(rest.len())?;
        Ok(InTurn {
            number: self.number,
            sender: self.sender,
            intent: self.intent.clone()?,
            no_abort: self.no_abort,
            initial: self.initial.clone()?,
            wanted: self.wanted,
            past,
            rest,
            current: self.current.clone()?,
            last: self.last,
            aborted: self.aborted,
        })
    }
}
