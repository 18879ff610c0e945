//! A gate in memory that parks links, whose links and failures are given.
ghost use Rattle.std.specs.Prelude.{◌≡◌, ◌+◌, ◌<◌, ◌≤◌, ◌↔◌, ◌++◌, ◌∷◌, [], true, Some, IsErr, IsTrue, IfOk, IfSome, OnErr, OnOk, drop, length, slice_get, vec_capacity};
ghost use Rattle.std.specs.Option.{option_map};
ghost use Rattle.am_outside.specs.Memory.{fails, one_more};
ghost use Rattle.am_network.specs.Links.{HandsNext, HandsOut, IsUnreadAtFirst, MayTakeBack, set_aside, taken_back};
ghost use Rattle.am_trials_network.specs.Gates.{AreUnused, HasUnusedEnds, called_once, coming, counted, ends_again, ends_of, ends_view, handed_first, handed_next, handed_view, links_of, new_gate, next_of, with_ended, with_parked};

use crate::resting_link::{ParkedLink, RestingLink, RestingPlan};
use am_network::{Acceptor, MemoryReader, MemoryWriter, Progress, RestingReader};
use am_outside::{Failed, is_failing};
use am_types::List;
use std::alloc::{AllocError, Global};
use std::collections::VecDeque;
use std::marker::Model;
use std::snapshot::Snapshot;

/// A gate in memory that parks every link that it is asked to park. It hands out its new links first, and then those that
/// are parked, in the order in which they came. The calls for a link with the numbers that it was given fail, and no
/// others.
#[derive(Drop)]
pub struct RestingGate {
    // The links as they were given, for contracts only.
    plan: Snapshot<List<RestingPlan>>,
    coming: VecDeque<RestingPlan>,
    handed: u64,
    // It has room for every link.
    ended: Vec<RestingLink>,
    // So does this.
    parked: VecDeque<ParkedLink>,
    failing: List<u32>,
    calls: u64,
    faults: u64,
    // How many links had been handed out when a call failed last.
    failed_at: Option<u64>,
}

impl Model for RestingGate {
    ghost use Rattle.std.specs.Prelude.{◌≡◌, ◌≤◌, drop, length, vec_capacity};
    ghost use Rattle.std.specs.VecDeque.{deque_capacity};
    ghost use Rattle.am_trials_network.specs.Gates.{AreUnused, RestingInMemory};

    ghost Value = { RestingInMemory };

    ghost view = { λ g. record {
      plan = g.plan.value;
      handed = g.handed;
      ended = g.ended.items;
      parked = g.parked.items;
      failing = g.failing;
      calls = g.calls;
      faults = g.faults;
      failed_at = g.failed_at;
    } };

    ghost invariant = { λ g. (g.coming.items ≡ drop g.handed g.plan.value) × (g.handed ≤ length g.plan.value)
        × (length g.plan.value ≤ vec_capacity g.ended) × (length g.plan.value ≤ deque_capacity g.parked)
        × AreUnused g.plan.value };
}

impl RestingGate {
    /// The gate of these links, of which the calls for a link with the numbers in `failing`, counted from 1, fail.
    pub fn new(
        alloc: Global,
        planned: List<RestingPlan>,
        failing: List<u32>,
    ) -> Result<RestingGate, AllocError>
        requires { AreUnused planned }
        ensures { IfOk result (λ gate. gate ≡ new_gate planned failing) }
    {
        let count = planned.as_slice().len();
        Ok(RestingGate {
            plan: Snapshot::of(&planned),
            ended: Vec::with_capacity(alloc, count)?,
            parked: VecDeque::with_capacity(alloc, count)?,
            coming: VecDeque::from_vec(planned.into_items()),
            handed: 0,
            failing,
            calls: 0,
            faults: 0,
            failed_at: None,
        })
    }

    /// The links that it ended, in the order in which they came back. Takes no memory.
    pub fn ended(&self) -> &[RestingLink]
        ensures { result.now ≡ self.now.ended }
    {
        self.ended.as_slice()
    }

    /// How many links are parked. Takes no memory.
    pub fn parked(&self) -> usize
        ensures { result ≡ length self.now.parked }
    {
        self.parked.len()
    }

    /// How many calls for a link failed. Takes no memory.
    pub fn faults(&self) -> u64
        ensures { result ≡ self.now.faults }
    {
        self.faults
    }

    // Counts a call for a link, and tells whether it is to fail.
    fn count_call(&mut self) -> Result<(), Failed>
        ensures exact { self.new ≡ counted self.old result }
        ensures fails { IsErr result ↔ IsTrue (fails self.old.failing (one_more self.old.calls)) }
        ensures never_falls { self.old.faults ≤ self.new.faults }
    {
        self.calls = self.calls.saturating_add(1);
        if is_failing(&self.failing, self.calls) {
            self.faults = self.faults.saturating_add(1);
            self.failed_at = Some(self.handed);
            return Err(Failed);
        }
        Ok(())
    }

    // Hands out the next link for the first time.
    fn hand_first(&mut self) -> Option<(RestingReader, MemoryWriter)>
        ensures exact { self.new ≡ handed_first self.old result }
        ensures answer { result ≡ option_map (ends_of self.old.handed) (slice_get self.old.plan self.old.handed) }
        ensures unused { IfSome (slice_get self.old.plan self.old.handed) HasUnusedEnds }
    {
        let planned = self.coming.pop_front()?;
        let mark = self.handed;
        self.handed += 1;
        Some((
            RestingReader {
                reader: MemoryReader {
                    source: planned.reader,
                    mark,
                },
                pauses: planned.pauses,
                asks: 0,
                waits: 0,
            },
            MemoryWriter {
                sink: planned.writer,
                mark,
            },
        ))
    }

    // Hands out the link that is parked the longest.
    fn hand_again(&mut self) -> Option<(RestingReader, MemoryWriter, Option<Progress>)>
        ensures exact { self.new ≡ record self.old { parked = drop 1 self.old.parked } }
        ensures answer { result ≡ option_map ends_again (slice_get self.old.parked 0) }
    {
        let ParkedLink { link, progress } = self.parked.pop_front()?;
        Some((link.reader, link.writer, Some(progress)))
    }

    // Hands out the next link for the first time, if new ones are taken, or else the one that is parked the longest.
    fn hand_next(
        &mut self,
        takes_new: bool,
    ) -> Option<(RestingReader, MemoryWriter, Option<Progress>)>
        ensures exact { self.new ≡ handed_next self.old (coming takes_new self.old) }
        ensures answer { result ≡ next_of self.old.handed (coming takes_new self.old) self.old.parked }
        ensures unused { IfSome (coming takes_new self.old) HasUnusedEnds }
    {
        if takes_new {
            if let Some((reader, writer)) = self.hand_first() {
                return Some((reader, writer, None));
            }
        }
        self.hand_again()
    }
}

impl Acceptor for RestingGate {
    ghost use Rattle.std.specs.Prelude.{Some};
    ghost use Rattle.am_trials_network.specs.Gates.{links_of};

    type Reader = RestingReader;

    type Writer = MemoryWriter;

    ghost links = { λ g. Some (links_of g) };

    ghost faults = { λ g. g.faults };

    fn accept(&mut self) -> Result<Option<(RestingReader, MemoryWriter)>, Failed>
        requires none_parked { self.old.parked ≡ [] }
        ensures exact { IfOk result (λ handed. self.new ≡ handed_first (called_once self.old) handed) }
        ensures none { OnErr result (self.new ≡ counted self.old result) }
        ensures fails { IsErr result ↔ IsTrue (fails self.old.failing (one_more self.old.calls)) }
        ensures answer { IfOk result (λ handed.
            handed ≡ option_map (ends_of self.old.handed) (slice_get self.old.plan self.old.handed)) }
        ensures next { IfOk result (λ handed. HandsOut (Some (links_of self.old)) (Some (links_of self.new))
            (option_map ends_view handed)) }
        ensures unread { IfOk result (λ handed. IfSome handed (λ ends. ends.0.reader.source.given ≡ [])) }
        ensures never_falls { self.old.faults ≤ self.new.faults }
        ensures failed { OnErr result (self.new.faults ≡ one_more self.old.faults) }
        ensures counted { OnOk result (self.new.faults ≡ self.old.faults) }
    {
        self.count_call()?;
        Ok(self.hand_first())
    }

    fn finish(&mut self, reader: RestingReader, writer: MemoryWriter)
        requires { MayTakeBack (Some (links_of self.old)) (ends_view (reader, writer)) }
        ensures exact { self.new ≡ with_ended self.old (record { reader = reader; writer = writer }) }
        ensures back { Some (links_of self.new)
            ≡ taken_back (Some (links_of self.old)) (ends_view (reader, writer)) }
    {
        self.ended.push_reserved(RestingLink { reader, writer });
    }

    fn next_link(
        &mut self,
        takes_new: bool,
    ) -> Result<Option<(RestingReader, MemoryWriter, Option<Progress>)>, Failed>
        ensures exact { OnOk result (self.new
            ≡ handed_next (called_once self.old) (coming takes_new self.old)) }
        ensures none { OnErr result (self.new ≡ counted self.old result) }
        ensures fails { IsErr result ↔ IsTrue (fails self.old.failing (one_more self.old.calls)) }
        ensures answer { IfOk result (λ handed.
            handed ≡ next_of self.old.handed (coming takes_new self.old) self.old.parked) }
        ensures next { IfOk result (λ handed. HandsNext takes_new (Some (links_of self.old))
            (Some (links_of self.new)) (option_map handed_view handed)) }
        ensures unread { IfOk result (λ handed. IfSome handed (λ link.
            IsUnreadAtFirst (Some (links_of self.old)) link.2 (Some link.0.reader.source.given))) }
        ensures never_falls { self.old.faults ≤ self.new.faults }
        ensures failed { OnErr result (self.new.faults ≡ one_more self.old.faults) }
        ensures counted { OnOk result (self.new.faults ≡ self.old.faults) }
    {
        self.count_call()?;
        Ok(self.hand_next(takes_new))
    }

    fn park(&mut self, reader: RestingReader, writer: MemoryWriter, progress: Progress) -> bool
        requires { MayTakeBack (Some (links_of self.old)) (ends_view (reader, writer)) }
        ensures exact { self.new ≡ with_parked self.old
            (record { link = record { reader = reader; writer = writer }; progress = progress }) }
        ensures parks { result ≡ true }
        ensures aside { Some (links_of self.new) ≡ set_aside (Some (links_of self.old))
            (record { link = ends_view (reader, writer); progress = progress }) }
    {
        let link = RestingLink { reader, writer };
        self.parked
            .push_back_reserved(ParkedLink { link, progress });
        true
    }
}
