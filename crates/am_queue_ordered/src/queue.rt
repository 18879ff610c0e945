//! A queue of ordered broadcasts.
ghost use Rattle.std.specs.Prelude.{◌≡◌, ℕ, ◌+◌, ◌^◌, ◌≤◌, ◌<◌, [], ◌∷◌, ◌++◌, true, false, is_none, length, map, vec_len, vec_capacity, IfOk, OnOk, OnErr, Option};
ghost use Rattle.std.specs.Option.{option_to_list, option_map};
ghost use Rattle.std.specs.List.{flat_map};
ghost use Rattle.am_model.specs.Broadcasts.{settled, is_head_due, head_deadline, earliest};
ghost use Rattle.am_model.specs.Sending.{held_at_head, strike, turn_items, unwanted};
ghost use Rattle.am_queue_ordered.specs.Turns.{in_order};
ghost use Rattle.am_queue_ordered.specs.Doings.{doing_of};
ghost use Rattle.am_queue_ordered.specs.Struck.{strikes};
ghost use Rattle.am_queue_ordered.specs.Heads.{head_turned, is_head, is_head_over, behind_head, head_result};
ghost use Rattle.am_queue_ordered.specs.Counts.{Covers, Follows, queued_of, results_of};

use crate::{Counts, Doing, Final, InTurn, Struck};
use am_types::{Item, Steps};
use std::alloc::{AllocError, Global};
use std::collections::VecDeque;
use std::marker::Model;
use std::sync::ledger::Ledger;

/// Ordered broadcasts, first in first out. Only the head has a delivery.
#[derive(Drop)]
pub struct Queue {
    turns: VecDeque<InTurn>,
}

impl Model for Queue {
    ghost use Rattle.std.specs.Prelude.{List};
    ghost use Rattle.am_model.specs.Broadcasts.{InTurn};
    ghost use Rattle.am_queue_ordered.specs.Heads.{AllWait};

    ghost Value = { List InTurn };

    ghost view = { λ l. l.turns.items };

    ghost invariant = { λ l. AllWait l.turns.items };
}

impl Queue {
    /// An empty queue. Takes no memory.
    pub fn new(alloc: Global) -> Self
        ensures { result ≡ [] }
    {
        Queue {
            turns: VecDeque::new(alloc),
        }
    }

    /// How many broadcasts are in it. Takes no memory.
    pub fn len(&self) -> usize
        ensures { result ≡ length self.now }
    {
        self.turns.len()
    }

    /// Puts a broadcast at the end. If memory runs out, the queue doesn't change.
    pub fn push(&mut self, sent: InTurn) -> Result<(), AllocError>
        requires { is_none sent.current ≡ true }
        ensures ok { OnOk result (self.new ≡ self.old ++ sent ∷ []) }
        ensures err { OnErr result (self.new ≡ self.old) }
    {
        self.turns.push_back(sent)?;
        Ok(())
    }

    /// Whether the head has a delivery that is due. A step is a reading of its deadline. Takes no
    /// memory.
    pub fn is_due<L: Ledger>(&self, now: u64, steps: &mut Steps<L>) -> bool
        ensures due { result ≡ is_head_due now self.now }
        ensures cost { steps.new ≤ steps.old + 1 }
    {
        match self.turns.front() {
            None => false,
            Some(head) => head.is_late(now, steps),
        }
    }

    /// The deadline of the delivery that the head has, if there is one. A step is a reading of it. Takes no
    /// memory.
    pub fn deadline<L: Ledger>(&self, steps: &mut Steps<L>) -> Option<u64>
        ensures deadline { result ≡ earliest (head_deadline self.now) }
        ensures cost { steps.new ≤ steps.old + 1 }
    {
        match self.turns.front() {
            None => None,
            Some(head) => head.deadline(steps),
        }
    }

    /// Whether the head has a delivery with this number. Takes no memory.
    pub fn is_head(&self, number: u64) -> bool
        ensures { result ≡ is_head number self.now }
    {
        match self.turns.front() {
            None => false,
            Some(head) => head.is_current(number),
        }
    }

    /// The uid that the delivery with this number is for, if the head has it. Takes no memory.
    pub fn holder(&self, number: u64) -> Option<u32>
        ensures { held_at_head number self.now ≡ option_map in_order result }
    {
        let head = self.turns.front()?;
        if head.is_current(number) {
            head.holder()
        } else {
            None
        }
    }

    /// Records what the head's first receiver did. Takes no memory.
    pub fn turn_head(&mut self, doing: Doing)
        ensures { self.new ≡ head_turned (doing_of doing) self.old }
    {
        if let Some(head) = self.turns.front_mut() {
            head.turn(doing);
        }
    }

    /// Whether the head is over.
    fn is_head_over(&self) -> bool
        ensures { result ≡ is_head_over self.now }
    {
        match self.turns.front() {
            None => false,
            Some(head) => head.is_over(),
        }
    }

    /// Removes the head, which is over, and adds its result to the others.
    fn end_head(&mut self, results: &mut Vec<Final>, live: &mut Counts, next: u64) -> u64
        requires over { is_head_over self.old ≡ true }
        requires room { vec_len results.old < vec_capacity results.old }
        requires counted { Covers live.old (queued_of self.old) }
        requires small { next + 1 < 2 ^ 64 }
        ensures queue { self.new ≡ behind_head self.old }
        ensures results { results.new.items ≡ results.old.items ++ head_result next self.old }
        ensures next { result ≡ next + length (head_result next self.old) }
        ensures capacity { vec_capacity results.new ≡ vec_capacity results.old }
        ensures live { Follows live.old live.new
            (λ uid. queued_of self.old uid + results_of results.old.items uid)
            (λ uid. queued_of self.new uid + results_of results.new.items uid) }
    {
        let Some(head) = self.turns.pop_front() else {
            return next;
        };
        if head.is_wanted() {
            results.push_reserved(head.into_final(next));
            return next + 1;
        }
        live.lower(head.sender());
        drop(head);
        next
    }

    /// Gives the head, which isn't over, its delivery if it doesn't have one.
    fn begin_head(&mut self, next: u64, deadline: u64) -> u64
        requires over { is_head_over self.old ≡ false }
        requires small { next + 1 < 2 ^ 64 }
        ensures queue { self.new ≡ (settled next deadline self.old).queue }
        ensures results { (settled next deadline self.old).results ≡ [] }
        ensures next { result ≡ (settled next deadline self.old).next }
    {
        let Some(head) = self.turns.front_mut() else {
            return next;
        };
        if head.has_delivery() {
            return next;
        }
        head.begin(next, deadline);
        next + 1
    }

    /// Removes the heads that are over, adds their results to the others, and gives the head that
    /// is left its delivery if it doesn't have one. Takes no memory.
    pub fn settle(
        &mut self,
        results: &mut Vec<Final>,
        live: &mut Counts,
        mut next: u64,
        deadline: u64,
    ) -> u64
        requires room { length self.old + vec_len results.old ≤ vec_capacity results.old }
        requires counted { Covers live.old (queued_of self.old) }
        requires small { next + length self.old + 1 < 2 ^ 64 }
        ensures queue { self.new ≡ (settled next deadline self.old).queue }
        ensures results { results.new.items ≡ results.old.items ++ (settled next deadline self.old).results }
        ensures next { result ≡ (settled next deadline self.old).next }
        ensures capacity { vec_capacity results.new ≡ vec_capacity results.old }
        ensures room { length self.new + vec_len results.new ≤ length self.old + vec_len results.old }
        ensures live { Follows live.old live.new
            (λ uid. queued_of self.old uid + results_of results.old.items uid)
            (λ uid. queued_of self.new uid + results_of results.new.items uid) }
    {
        while self.is_head_over() {
            next = self.end_head(results, live, next);
        }
        self.begin_head(next, deadline)
    }

    /// Strikes receivers in each broadcast. Takes no memory.
    pub fn strike(&mut self, struck: &Struck)
        ensures { self.new ≡ map (strike (strikes struck.now)) self.old }
    {
        for place in 0..self.turns.len() {
            let turn = &mut self.turns[place];
            turn.strike(struck);
        }
    }

    /// A uid no longer wants results. Takes no memory.
    pub fn unwant(&mut self, uid: u32)
        ensures { self.new ≡ map (unwanted uid) self.old }
    {
        for place in 0..self.turns.len() {
            let turn = &mut self.turns[place];
            turn.unwant(uid);
        }
    }

    /// The delivery to a uid, if there is one, as an item of its inbox.
    pub fn item(&self, uid: u32) -> Result<Option<Item>, AllocError>
        ensures { IfOk result (λ item. option_to_list item ≡ flat_map (turn_items uid) self.now) }
    {
        match self.turns.front() {
            None => Ok(None),
            Some(head) => head.item(uid),
        }
    }

    /// An equal queue, which also holds the memory for what its receivers do.
    pub fn copy(&self) -> Result<Self, AllocError>
        ensures { IfOk result (λ copy. copy ≡ self.now) }
    {
        Ok(Queue {
            turns: self.turns.clone()?,
        })
    }
}
