//! A network in memory, whose gates and failures are given.
ghost use Rattle.std.specs.Prelude.{◌≡◌, ◌+◌, ◌≤◌, ◌↔◌, ◌++◌, ℕ, [], Some, None, Err, IsTrue, IfOk, OnErr, All, drop, length, map, slice_get, slice_index_or, vec_len, vec_capacity};
ghost use Rattle.am_outside.specs.Counts.{HasRisen};
ghost use Rattle.am_outside.specs.Memory.{fails, one_more};
ghost use Rattle.am_network.specs.Links.{IsNewGate, MayRelease, listening_at, released};
ghost use Rattle.am_network.specs.Memory.{ArePlans, AreUnused, GateInMemory, after_listen, after_release, counted_listen, gate_view, gates_of, listening_again, listening_of, new_network, no_plan, rooms_of};

use crate::memory_gate::{GatePlan, MemoryGate, Room};
use crate::network::{ListenFail, Network};
use am_outside::Calls;
use am_types::List;
use std::alloc::{AllocError, Global};
use std::collections::VecDeque;
use std::marker::Model;

/// A network in memory. The calls of `listen` with the numbers that it was given fail, and no others, except when
/// memory runs out.
#[derive(Drop)]
pub struct MemoryNetwork {
    alloc: Global,
    coming: VecDeque<GatePlan>,
    port: u16,
    gates: u32,
    // It has room for every gate that was answered last.
    released: Vec<MemoryGate>,
    listens: Calls,
    gate_faults: u64,
}

impl Model for MemoryNetwork {
    ghost use Rattle.std.specs.Prelude.{◌≤◌, vec_capacity};
    ghost use Rattle.am_network.specs.Memory.{ArePlans, NetworkInMemory, new_network};

    ghost Value = { NetworkInMemory };

    ghost view = { λ n. record (new_network n.coming.items n.listens.failing) {
      port = n.port;
      gates = n.gates;
      released = n.released.items;
      listens = n.listens.made;
      faults = n.listens.faults;
      gate_faults = n.gate_faults;
    } };

    ghost invariant = { λ n. (n.gates ≤ vec_capacity n.released) × ArePlans n.coming.items };
}

// How many links the plan with this number has, counted from 0, or none if there is no such plan.
fn links_at(planned: &VecDeque<GatePlan>, number: usize) -> usize
    ensures { result ≡ length (slice_index_or planned.now.items number no_plan).links }
{
    match planned.get(number) {
        Some(plan) => plan.links.as_slice().len(),
        None => 0,
    }
}

// The room for the links of so many gates.
#[tactic(auto, using(crate::proofs::Opening::rooms_grow, crate::proofs::Opening::rooms_end))]
fn rooms_for(
    alloc: Global,
    planned: &VecDeque<GatePlan>,
    gates: u32,
) -> Result<Vec<Room>, AllocError>
    ensures { IfOk result (λ rooms. rooms.items ≡ rooms_of gates planned.now.items) }
{
    let mut rooms = Vec::with_capacity(alloc, gates as usize)?;
    for number in 0..gates as usize {
        rooms.push(Room::new(alloc, links_at(planned, number))?)?;
    }
    Ok(rooms)
}

// Takes the next plan, or the plan of a closed gate if there is none.
fn next_plan(alloc: Global, coming: &mut VecDeque<GatePlan>) -> GatePlan
    requires { ArePlans coming.old.items }
    ensures next { result ≡ slice_index_or coming.old.items 0 no_plan }
    ensures rest { coming.new.items ≡ drop 1 coming.old.items }
    ensures unused { AreUnused result.links }
    ensures plans { ArePlans coming.new.items }
{
    match coming.pop_front() {
        Some(plan) => plan,
        None => GatePlan {
            links: List::new(Vec::new(alloc)),
            failing: List::new(Vec::new(alloc)),
        },
    }
}

// Opens the next gates, as many as there are rooms, and appends them to those already made.
#[tactic(auto, using(crate::proofs::Opening::first_room, crate::proofs::Opening::other_rooms, crate::proofs::Opening::gates_grow, crate::proofs::Opening::left_behind))]
fn open_gates(
    alloc: Global,
    coming: &mut VecDeque<GatePlan>,
    mut rooms: VecDeque<Room>,
    mut made: Vec<MemoryGate>,
) -> Vec<MemoryGate>
    requires plans { ArePlans coming.old.items }
    requires rooms { rooms.items ≡ rooms_of (length rooms.items) coming.old.items }
    requires capacity { vec_len made + length rooms.items ≤ vec_capacity made }
    ensures made { result.items ≡ made.items ++ gates_of (length rooms.items) coming.old.items }
    ensures rest { coming.new.items ≡ drop (length rooms.items) coming.old.items }
    ensures plans { ArePlans coming.new.items }
{
    while let Some(room) = rooms.pop_front() {
        let plan = next_plan(alloc, coming);
        made.push_reserved(MemoryGate::open(plan, room));
    }
    made
}

impl MemoryNetwork {
    /// A network of these gates. The calls of `listen` with the numbers in `failing`, counted from 1, fail. Takes no
    /// memory.
    pub fn new(alloc: Global, gates: List<GatePlan>, failing: List<u32>) -> MemoryNetwork
        requires { ArePlans gates }
        ensures { result ≡ new_network gates failing }
    {
        MemoryNetwork {
            alloc,
            coming: VecDeque::from_vec(gates.into_items()),
            port: 0,
            gates: 0,
            released: Vec::new(alloc),
            listens: Calls::new(failing),
            gate_faults: 0,
        }
    }

    /// The gates that were released since it last listened, in their order. Takes no memory.
    pub fn released(&self) -> &[MemoryGate]
        ensures { result.now ≡ self.now.released }
    {
        self.released.as_slice()
    }

    /// How many calls of `listen` failed. Takes no memory.
    pub fn faults(&self) -> u64
        ensures { result ≡ self.now.faults }
    {
        self.listens.faults
    }

    /// How many faults the released gates had. Takes no memory.
    pub fn gate_faults(&self) -> u64
        ensures { result ≡ self.now.gate_faults }
    {
        self.gate_faults
    }

    // Counts a call of `listen`, and tells whether it is to fail.
    fn count_listen(&mut self) -> Result<(), ListenFail>
        ensures exact { self.new ≡ counted_listen self.old result }
        ensures fails { (result ≡ Err ListenFail.Failed) ↔ IsTrue (fails self.old.failing (one_more self.old.listens)) }
        ensures never_falls { self.old.faults ≤ self.new.faults }
        ensures failed { result ≡ Err ListenFail.Failed → HasRisen self.old.faults self.new.faults }
    {
        if self.listens.next_fails() {
            return Err(ListenFail::Failed);
        }
        Ok(())
    }

    // Listens, if memory lasts.
    fn open(&mut self, port: u16, gates: u32) -> Result<Vec<MemoryGate>, AllocError>
        ensures exact { IfOk result (λ made. self.new ≡ listening_again self.old port gates) }
        ensures made { IfOk result (λ made. made.items ≡ gates_of gates self.old.coming) }
        ensures same { OnErr result (self.new ≡ self.old) }
    {
        let rooms = rooms_for(self.alloc, &self.coming, gates)?;
        let made = Vec::with_capacity(self.alloc, gates as usize)?;
        self.released = Vec::with_capacity(self.alloc, gates as usize)?;
        self.port = port;
        self.gates = gates;
        Ok(open_gates(
            self.alloc,
            &mut self.coming,
            VecDeque::from_vec(rooms),
            made,
        ))
    }
}

impl Network for MemoryNetwork {
    ghost use Rattle.std.specs.Prelude.{Some};
    ghost use Rattle.am_network.specs.Memory.{listening_of};

    type Gate = MemoryGate;

    ghost listening = { λ n. Some (listening_of n) };

    ghost listens = { λ n. n.listens };

    ghost faults = { λ n. n.faults };

    ghost gate_faults = { λ n. n.gate_faults };

    fn listen(&mut self, port: u16, gates: u32) -> Result<Vec<MemoryGate>, ListenFail>
        ensures exact { self.new ≡ after_listen self.old port gates result }
        ensures fails { (result ≡ Err ListenFail.Failed) ↔ IsTrue (fails self.old.failing (one_more self.old.listens)) }
        ensures made { IfOk result (λ made. made.items ≡ gates_of gates self.old.coming) }
        ensures count { IfOk result (λ made. length made.items ≡ gates) }
        ensures new { IfOk result (λ made. (k : ℕ) (gate : GateInMemory) → slice_get made.items k ≡ Some gate
            → IsNewGate (gate_view gate)) }
        ensures never_falls { self.old.faults ≤ self.new.faults }
        ensures failed { result ≡ Err ListenFail.Failed → HasRisen self.old.faults self.new.faults }
    {
        self.count_listen()?;
        Ok(self.open(port, gates)?)
    }

    fn release(&mut self, gate: MemoryGate)
        requires { MayRelease (Some (listening_of self.old)) }
        ensures exact { self.new ≡ after_release self.old gate }
        ensures told { Some (listening_of self.new) ≡ released (Some (listening_of self.old)) (gate_view gate) }
        ensures calm { gate.faults ≡ 0 → self.new.gate_faults ≡ self.old.gate_faults }
    {
        self.gate_faults = self.gate_faults.saturating_add(gate.faults());
        self.released.push_reserved(gate);
    }
}
