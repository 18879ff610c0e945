//! The results that wait for their senders.
ghost use Rattle.std.specs.Prelude.{◌≡◌, ℕ, ◌+◌, ◌^◌, ◌<◌, ◌≤◌, [], ◌∷◌, ◌++◌, not, filter, map, length, vec_capacity, vec_len, IfOk, OnOk, MatchOption};
ghost use Rattle.std.specs.Option.{option_map};
ghost use Rattle.am_model.specs.Broadcasts.{settled};
ghost use Rattle.am_model.specs.Sending.{held_in_results, result_items};
ghost use Rattle.am_queue_ordered.specs.Counts.{Covers, Follows, queued_of, results_of};
ghost use Rattle.am_queue_normal.specs.Kept.{at_once_by};
ghost use Rattle.am_queue.specs.Results.{AreRising, IsOnly, of_number};
ghost use Rattle.am_queue.specs.Taken.{is_taken};

use am_queue_ordered::{Counts, Final, Queue};
use am_types::Item;
use std::alloc::{AllocError, Global};
use std::marker::Model;

/// Which results are removed.
#[derive(Clone, Copy)]
pub(crate) enum Taken {
    /// The result with this delivery number.
    Delivery(u64),
    /// The results of a sender.
    Sender(u32),
}

impl Taken {
    fn takes(&self, kept: &Final) -> bool
        ensures { result ≡ is_taken self.now kept.now }
    {
        match self {
            Taken::Delivery(number) => kept.delivery() == *number,
            Taken::Sender(uid) => kept.sender() == *uid,
        }
    }
}

/// The results that wait for their senders.
#[derive(Drop)]
pub(crate) struct Results {
    /// By rising delivery number.
    kept: Vec<Final>,
}

impl Model for Results {
    ghost use Rattle.std.specs.Prelude.{◌-◌, vec_capacity, vec_len};
    ghost use Rattle.am_queue.specs.Results.{Waiting};

    ghost Value = { Waiting };

    ghost view = { λ r. record { list = r.kept.items; room = vec_capacity r.kept - vec_len r.kept } };
}

/// The place of the result with this delivery number.
fn place_of(kept: &[Final], number: u64) -> Option<usize>
    requires { (end : ℕ) × AreRising 0 end kept.now }
    ensures { MatchOption result (of_number number kept.now ≡ []) (IsOnly number kept.now) }
{
    match kept.binary_search_by_key(&number, |kept| kept.delivery()) {
        Ok(place) => Some(place),
        Err(_) => None,
    }
}

/// Removes results, and lowers their senders' numbers.
fn take_kept(results: &mut Vec<Final>, taken: &Taken, live: &mut Counts)
    requires { Covers live.old (results_of results.old.items) }
    ensures left { results.new.items ≡ filter (λ kept. not (is_taken taken.now kept)) results.old.items }
    ensures live { Follows live.old live.new (results_of results.old.items) (results_of results.new.items) }
    ensures capacity { vec_capacity results.new ≡ vec_capacity results.old }
    ensures fewer { vec_len results.new ≤ vec_len results.old }
{
    let mut place = 0;
    while place < results.len() {
        if taken.takes(&results[place]) {
            let gone = results.remove(place);
            live.lower(gone.sender());
            drop(gone);
        } else {
            place += 1;
        }
    }
}

impl Results {
    /// No results. Takes no memory.
    pub(crate) fn new(alloc: Global) -> Self
        ensures { result.list ≡ [] }
    {
        Results {
            kept: Vec::new(alloc),
        }
    }

    /// Makes room for this many more.
    pub(crate) fn reserve(&mut self, more: usize) -> Result<(), AllocError>
        ensures list { self.new.list ≡ self.old.list }
        ensures room { OnOk result (more ≤ self.new.room) }
        ensures no_less { self.old.room ≤ self.new.room }
    {
        self.kept.reserve(more)?;
        Ok(())
    }

    /// Settles a queue, and adds the results of its heads that are over to the others. Takes no
    /// memory.
    pub(crate) fn settle(
        &mut self,
        queue: &mut Queue,
        live: &mut Counts,
        next: u64,
        deadline: u64,
    ) -> u64
        requires room { length queue.old ≤ self.old.room }
        requires counted { Covers live.old (queued_of queue.old) }
        requires small { next + length queue.old + 1 < 2 ^ 64 }
        ensures queue { queue.new ≡ (settled next deadline queue.old).queue }
        ensures results { self.new.list ≡ self.old.list ++ (settled next deadline queue.old).results }
        ensures next { result ≡ (settled next deadline queue.old).next }
        ensures room { length queue.new + self.old.room ≤ length queue.old + self.new.room }
        ensures live { Follows live.old live.new
            (λ uid. queued_of queue.old uid + results_of self.old.list uid)
            (λ uid. queued_of queue.new uid + results_of self.new.list uid) }
    {
        queue.settle(&mut self.kept, live, next, deadline)
    }

    /// Who the result with this delivery number is for. Takes no memory.
    pub(crate) fn holder(&self, number: u64) -> Option<u32>
        requires { (end : ℕ) × AreRising 0 end self.now.list }
        ensures { held_in_results number self.now.list ≡ option_map at_once_by result }
    {
        match place_of(&self.kept, number) {
            None => None,
            Some(place) => Some(self.kept[place].sender()),
        }
    }

    /// Removes results, and lowers their senders' numbers. Takes no memory.
    pub(crate) fn take_out(&mut self, taken: &Taken, live: &mut Counts)
        requires { Covers live.old (results_of self.old.list) }
        ensures left { self.new.list ≡ filter (λ kept. not (is_taken taken.now kept)) self.old.list }
        ensures live { Follows live.old live.new (results_of self.old.list) (results_of self.new.list) }
        ensures room { self.old.room ≤ self.new.room }
    {
        take_kept(&mut self.kept, taken, live);
    }

    /// Adds the results of a uid after the other items.
    pub(crate) fn push_items(&self, uid: u32, items: &mut Vec<Item>) -> Result<(), AllocError>
        ensures { OnOk result (items.new.items ≡ items.old.items ++ result_items uid self.now.list) }
    {
        for kept in &self.kept {
            if kept.sender() == uid {
                items.push(kept.item()?)?;
            }
        }
        Ok(())
    }

    /// The same results, with room for this many more.
    pub(crate) fn copy(&self, more: usize) -> Result<Self, AllocError>
        ensures list { IfOk result (λ copy. copy.list ≡ self.now.list) }
        ensures room { IfOk result (λ copy. more ≤ copy.room) }
    {
        let mut copy = Results {
            kept: self.kept.clone()?,
        };
        copy.reserve(more)?;
        Ok(copy)
    }
}
