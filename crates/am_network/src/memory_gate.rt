//! A gate in memory, whose links and failures are given.
ghost use Rattle.std.specs.Prelude.{◌≡◌, ◌<◌, ◌≤◌, ◌↔◌, ◌++◌, ◌∷◌, [], false, Some, IsErr, IsTrue, IfOk, IfSome, OnErr, OnOk, length, slice_get, vec_capacity};
ghost use Rattle.std.specs.Option.{option_map};
ghost use Rattle.am_outside.specs.Memory.{fails, one_more};
ghost use Rattle.am_network.specs.Links.{HandsNext, HandsOut, IsUnread, MayTakeBack, failed, link_of, taken_back};
ghost use Rattle.am_network.specs.Memory.{AreUnused, IsUnused, after_accept, after_next, counted, ends_of, ends_view, handed_out, handed_view, links_of, new_gate, unparked};

use crate::memory_link::{LinkPlan, MemoryLink, MemoryReader, MemoryWriter};
use crate::network::Acceptor;
use crate::progress::Progress;
use am_outside::{Calls, Failed};
use am_types::List;
use std::alloc::{AllocError, Global};
use std::collections::VecDeque;
use std::marker::Model;
use std::snapshot::Snapshot;

/// A gate that is to come: its links, whose readers and writers are unused, and the numbers of the calls for a link that
/// fail, counted from 1.
#[derive(Drop)]
pub struct GatePlan {
    /// The links that arrive, in their order.
    pub links: List<LinkPlan>,
    /// The numbers of the calls that fail.
    pub failing: List<u32>,
}

/// A gate in memory. The calls for a link with the numbers that it was given fail, and no others. It parks no link, and
/// counts a fault for each one that it was to park.
#[derive(Drop)]
pub struct MemoryGate {
    // The links as they were given, for contracts only.
    plan: Snapshot<List<LinkPlan>>,
    coming: VecDeque<LinkPlan>,
    handed: u64,
    // It has room for every link.
    ended: Vec<MemoryLink>,
    accepts: Calls,
    // How many links had been handed out when a call failed last.
    failed_at: Option<u64>,
}

impl Model for MemoryGate {
    ghost use Rattle.std.specs.Prelude.{◌≡◌, ◌≤◌, drop, length, vec_capacity};
    ghost use Rattle.am_network.specs.Memory.{AreUnused, GateInMemory, new_gate};

    ghost Value = { GateInMemory };

    ghost view = { λ g. record (new_gate (record { links = g.plan.value; failing = g.accepts.failing })) {
      handed = g.handed;
      ended = g.ended.items;
      accepts = g.accepts.made;
      faults = g.accepts.faults;
      failed_at = g.failed_at;
    } };

    ghost invariant = { λ g. (g.coming.items ≡ drop g.handed g.plan.value) × (g.handed ≤ length g.plan.value)
        × (length g.plan.value ≤ vec_capacity g.ended) × AreUnused g.plan.value };
}

/// The room for links that a gate takes back. Contracts see how many it has room for.
#[derive(Drop)]
pub(crate) struct Room {
    links: Vec<MemoryLink>,
}

impl Model for Room {
    ghost use Rattle.std.specs.Prelude.{◌≡◌, ℕ, [], vec_capacity};

    ghost Value = { ℕ };

    ghost view = { λ r. vec_capacity r.links };

    ghost invariant = { λ r. r.links.items ≡ [] };
}

impl Room {
    // Room for so many links.
    pub(crate) fn new(alloc: Global, links: usize) -> Result<Room, AllocError>
        ensures { IfOk result (λ room. room ≡ links) }
    {
        Ok(Room {
            links: Vec::with_capacity(alloc, links)?,
        })
    }
}

impl MemoryGate {
    // The gate of a plan, with the room for its links.
    pub(crate) fn open(plan: GatePlan, room: Room) -> MemoryGate
        requires unused { AreUnused plan.links }
        requires room { length plan.links ≤ room }
        ensures { result ≡ new_gate plan }
    {
        MemoryGate {
            plan: Snapshot::of(&plan.links),
            coming: VecDeque::from_vec(plan.links.into_items()),
            handed: 0,
            ended: room.links,
            accepts: Calls::new(plan.failing),
            failed_at: None,
        }
    }

    /// The links that it took back, in the order in which they came. Takes no memory.
    pub fn ended(&self) -> &[MemoryLink]
        ensures { result.now ≡ self.now.ended }
    {
        self.ended.as_slice()
    }

    /// How many calls for a link failed, and how many links weren't parked that were to be. Takes no memory.
    pub fn faults(&self) -> u64
        ensures { result ≡ self.now.faults }
    {
        self.accepts.faults
    }

    // Counts a call for a link, and tells whether it is to fail.
    fn count_accept(&mut self) -> Result<(), Failed>
        ensures exact { self.new ≡ counted self.old result }
        ensures fails { IsErr result ↔ IsTrue (fails self.old.failing (one_more self.old.accepts)) }
        ensures never_falls { self.old.faults ≤ self.new.faults }
    {
        if self.accepts.next_fails() {
            self.failed_at = Some(self.handed);
            return Err(Failed);
        }
        Ok(())
    }

    // Hands out the next link.
    fn hand_out(&mut self) -> Option<(MemoryReader, MemoryWriter)>
        ensures exact { self.new ≡ handed_out self.old result }
        ensures answer { result ≡ option_map (ends_of self.old.handed) (slice_get self.old.plan self.old.handed) }
        ensures unused { IfSome (slice_get self.old.plan self.old.handed) IsUnused }
    {
        let link = self.coming.pop_front()?;
        let mark = self.handed;
        self.handed += 1;
        Some((
            MemoryReader {
                source: link.reader,
                mark,
            },
            MemoryWriter {
                sink: link.writer,
                mark,
            },
        ))
    }
}

impl Acceptor for MemoryGate {
    ghost use Rattle.std.specs.Prelude.{Some};
    ghost use Rattle.am_network.specs.Memory.{links_of};

    type Reader = MemoryReader;

    type Writer = MemoryWriter;

    ghost links = { λ g. Some (links_of g) };

    ghost faults = { λ g. g.faults };

    fn accept(&mut self) -> Result<Option<(MemoryReader, MemoryWriter)>, Failed>
        ensures exact { self.new ≡ after_accept self.old result }
        ensures fails { IsErr result ↔ IsTrue (fails self.old.failing (one_more self.old.accepts)) }
        ensures answer { IfOk result (λ handed.
            handed ≡ option_map (ends_of self.old.handed) (slice_get self.old.plan self.old.handed)) }
        ensures next { IfOk result (λ handed. HandsOut (Some (links_of self.old)) (Some (links_of self.new))
            (option_map ends_view handed)) }
        ensures unread { IfOk result (λ handed. IfSome handed (λ ends. ends.0.source.given ≡ [])) }
        ensures never_falls { self.old.faults ≤ self.new.faults }
        ensures failed { OnErr result (self.new.faults ≡ one_more self.old.faults) }
        ensures counted { OnOk result (self.new.faults ≡ self.old.faults) }
    {
        self.count_accept()?;
        Ok(self.hand_out())
    }

    fn finish(&mut self, reader: MemoryReader, writer: MemoryWriter)
        requires { MayTakeBack (Some (links_of self.old)) (ends_view (reader, writer)) }
        ensures exact { self.new
            ≡ record self.old { ended = self.old.ended ++ (record { reader = reader; writer = writer }) ∷ [] } }
        ensures back { Some (links_of self.new)
            ≡ taken_back (Some (links_of self.old)) (ends_view (reader, writer)) }
    {
        self.ended.push_reserved(MemoryLink { reader, writer });
    }

    fn next_link(
        &mut self,
        takes_new: bool,
    ) -> Result<Option<(MemoryReader, MemoryWriter, Option<Progress>)>, Failed>
        ensures exact { self.new ≡ after_next takes_new self.old result }
        ensures next { IfOk result (λ handed. HandsNext takes_new (Some (links_of self.old))
            (Some (links_of self.new)) (option_map handed_view handed)) }
        ensures unread { IfOk result (λ handed. IfSome handed (λ link. link.0.source.given ≡ [])) }
        ensures none { OnErr result (Some (links_of self.new) ≡ failed (Some (links_of self.old))) }
        ensures never_falls { self.old.faults ≤ self.new.faults }
        ensures failed { OnErr result (self.new.faults ≡ one_more self.old.faults) }
        ensures counted { OnOk result (self.new.faults ≡ self.old.faults) }
    {
        if !takes_new {
            return Ok(None);
        }
        let Some((reader, writer)) = self.accept()? else {
            return Ok(None);
        };
        Ok(Some((reader, writer, None)))
    }

    fn park(&mut self, reader: MemoryReader, writer: MemoryWriter, _progress: Progress) -> bool
        requires { MayTakeBack (Some (links_of self.old)) (ends_view (reader, writer)) }
        ensures exact { self.new ≡ unparked self.old (record { reader = reader; writer = writer }) }
        ensures parks { result ≡ false }
        ensures never_falls { self.old.faults ≤ self.new.faults }
        ensures back { Some (links_of self.new)
            ≡ taken_back (Some (links_of self.old)) (ends_view (reader, writer)) }
    {
        self.finish(reader, writer);
        self.accepts.faults = self.accepts.faults.saturating_add(1);
        false
    }
}
