//! Many workers, each in a thread of its own.
ghost use Rattle.std.specs.Prelude.{◌≡◌, ◌+◌, ◌<◌, ◌≤◌, ◌++◌, ℕ, List as Items, All, IfOk, IfSome, Some, [], length, map, min, slice_get, slice_index_or, sum_by, vec_len, vec_capacity};
ghost use Rattle.std.specs.List.{list_any};
ghost use Rattle.am_network.specs.Links.{AreBack, GateView, IsNewGate};
ghost use Rattle.am_workers.specs.declared.worker.Worker.{Worker};
ghost use Rattle.am_workers.specs.Work.{Works, gate_of, worker_of};
ghost use Rattle.am_workers.specs.Serving.{IsUnserved, MayReleaseAll, all_released, faults_raised, network_of};

use crate::working::{Worked, work};
use am_desk::Desk;
use am_http::Buffers;
use am_network::{Acceptor, Network};
use am_outside::Clock;
use am_types::NoMemory;
use std::alloc::Global;
use std::collections::VecDeque;
use std::sync::Wait;
use std::thread;
use std::thread::Threads;

/// A worker: its desk, its gate, and everything else that it works with.
#[derive(Drop)]
pub struct Worker<D: Drop, A: Drop, C: Drop> {
    pub desk: D,
    pub gate: A,
    pub clock: C,
    pub buffers: Buffers,
    pub worked: Worked,
}

/// The memory that workers work with, taken before the first of them begins: the room for the workers and for their
/// desks at the end, and the buffers of each.
#[derive(Drop)]
pub struct Rooms<D: Drop, A: Drop, C: Drop> {
    pub workers: Vec<Worker<D, A, C>>,
    pub desks: Vec<D>,
    pub buffers: VecDeque<Buffers>,
}

// The buffers of so many workers.
fn buffers_for(alloc: Global, count: usize) -> Result<Vec<Buffers>, NoMemory>
    ensures { IfOk result (λ made. length made.items ≡ count) }
{
    let mut buffers = Vec::with_capacity(alloc, count)?;
    for _number in 0..count {
        buffers.push(Buffers::new(alloc)?)?;
    }
    Ok(buffers)
}

// The memory for so many workers.
pub(crate) fn rooms_for<D: Drop, A: Drop, C: Drop>(
    alloc: Global,
    count: usize,
) -> Result<Rooms<D, A, C>, NoMemory>
    ensures workers { IfOk result (λ made. (made.workers.items ≡ []) × (count ≤ vec_capacity made.workers)) }
    ensures desks { IfOk result (λ made. (made.desks.items ≡ []) × (count ≤ vec_capacity made.desks)) }
    ensures buffers { IfOk result (λ made. length made.buffers.items ≡ count) }
{
    let buffers = buffers_for(alloc, count)?;
    Ok(Rooms {
        workers: Vec::with_capacity(alloc, count)?,
        desks: Vec::with_capacity(alloc, count)?,
        buffers: VecDeque::from_vec(buffers),
    })
}

// One worker for each desk and gate, in their order, each with a clock that tells what the given one tells. Takes no
// memory.
pub(crate) fn hire<D: Drop, A: Acceptor, C: Clock>(
    clock: &C,
    desks: Vec<D>,
    gates: Vec<A>,
    mut buffers: VecDeque<Buffers>,
    mut workers: Vec<Worker<D, A, C>>,
) -> Vec<Worker<D, A, C>>
    requires gates { vec_len desks ≡ vec_len gates }
    requires buffers { vec_len desks ≡ length buffers.items }
    requires empty { workers.items ≡ [] }
    requires room { vec_len desks ≤ vec_capacity workers }
    ensures desks { map (λ (w : Worker D A C). w.desk) result.items ≡ desks.items }
    ensures gates { map (λ (w : Worker D A C). w.gate) result.items ≡ gates.items }
    ensures clocks { All (λ (w : Worker D A C). (calls : ℕ) → C.moments w.clock calls ≡ C.moments clock.now calls)
        result.items }
{
    let mut free_desks = VecDeque::from_vec(desks);
    let mut free_gates = VecDeque::from_vec(gates);
    while let Some(desk) = free_desks.pop_front() {
        match (free_gates.pop_front(), buffers.pop_front()) {
            (Some(gate), Some(buffers)) => workers.push_reserved(Worker {
                desk,
                gate,
                clock: clock.another(),
                buffers,
                worked: Worked {
                    served: 0,
                    failed: false,
                },
            }),
            _ => unreachable!(),
        }
    }
    workers
}

// Each worker works, in a thread of its own.
pub(crate) fn work_all<R: Threads + Wait + Sync, D: Desk + Drop + Send, A: Acceptor, C: Clock>(
    rt: &R,
    alloc: Global,
    workers: &mut [Worker<D, A, C>],
    most: Option<u32>,
)
    requires back { All (λ (w : Worker D A C). IfSome (A.links w.gate) AreBack) workers.old }
    requires some { IfSome most (λ m. 1 ≤ m) }
    ensures count { length workers.new ≡ length workers.old }
    ensures works { (i : ℕ) (other : Worker D A C) → i < length workers.old →
        let old = slice_index_or workers.old i other in
        let new = slice_index_or workers.new i other in
        Works most (worker_of D.Desk A.Acceptor C.Clock old.desk old.gate old.clock)
        (worker_of D.Desk A.Acceptor C.Clock new.desk new.gate new.clock) new.worked }
{
    thread::for_each_mut(
        rt,
        workers,
        64,
        &|_: usize, worker: &mut Worker<D, A, C>|
            requires { IfSome (A.links worker.old.gate) AreBack × IfSome most (λ m. 1 ≤ m) }
            ensures { Works most
                (worker_of D.Desk A.Acceptor C.Clock worker.old.desk worker.old.gate worker.old.clock)
                (worker_of D.Desk A.Acceptor C.Clock worker.new.desk worker.new.gate worker.new.clock)
                worker.new.worked }
        {
            let worked = work(
                rt,
                alloc,
                &mut worker.desk,
                &mut worker.gate,
                &mut worker.clock,
                &mut worker.buffers,
                most,
            );
            worker.worked = worked;
        },
    );
}

// What the workers did together.
pub(crate) fn totals_of<D: Drop, A: Drop, C: Drop>(workers: &[Worker<D, A, C>]) -> Worked
    ensures served { result.served ≡ min 18446744073709551615 (sum_by (λ (w : Worker D A C). w.worked.served)
        workers.now) }
    ensures failed { result.failed ≡ list_any (λ (w : Worker D A C). w.worked.failed) workers.now }
{
    Worked {
        served: served_by(workers),
        failed: workers.iter().any(|worker| worker.worked.failed),
    }
}

// How many links they served together.
fn served_by<D: Drop, A: Drop, C: Drop>(workers: &[Worker<D, A, C>]) -> u64
    ensures { result ≡ min 18446744073709551615 (sum_by (λ (w : Worker D A C). w.worked.served) workers.now) }
{
    let mut served: u64 = 0;
    for worker in workers {
        served = served.saturating_add(worker.worked.served);
    }
    served
}

// Hands the gates back to the network, in the order of the workers, and appends the desks to those that are there.
pub(crate) fn dismiss<N: Network, D: Drop, C: Drop>(
    network: &mut N,
    mut workers: VecDeque<Worker<D, N::Gate, C>>,
    mut desks: Vec<D>,
) -> Vec<D>
    requires room { vec_len desks + length workers.items ≤ vec_capacity desks }
    requires may { MayReleaseAll (N.listening network.old) (length workers.items) }
    ensures desks { result.items ≡ desks.items ++ map (λ (w : Worker D N.Gate C). w.desk) workers.items }
    ensures told { N.listening network.new ≡ all_released (N.listening network.old)
        (map (λ (w : Worker D N.Gate C). gate_of N.Gate.Acceptor w.gate) workers.items) }
    ensures listens { N.listens network.new ≡ N.listens network.old }
    ensures faults { N.faults network.new ≡ N.faults network.old }
    ensures gate_faults { N.gate_faults network.new ≡ faults_raised (N.gate_faults network.old)
        (map (λ (w : Worker D N.Gate C). gate_of N.Gate.Acceptor w.gate) workers.items) }
{
    while let Some(worker) = workers.pop_front() {
        let Worker {
            desk,
            gate,
            clock: _,
            buffers: _,
            worked: _,
        } = worker;
        network.release(gate);
        desks.push_reserved(desk);
    }
    desks
}

// Hands gates that no worker served back to the network, in their order, and answers that memory ran out.
pub(crate) fn dismiss_unserved<N: Network>(network: &mut N, gates: Vec<N::Gate>) -> NoMemory
    requires new { (k : ℕ) (gate : N.Gate) → slice_get gates.items k ≡ Some gate
        → IsNewGate (gate_of N.Gate.Acceptor gate) }
    requires may { MayReleaseAll (N.listening network.old) (vec_len gates) }
    ensures { IsUnserved (vec_len gates) (network_of N.Network network.old) (network_of N.Network network.new) }
{
    let mut left = VecDeque::from_vec(gates);
    while let Some(unserved) = left.pop_front() {
        network.release(unserved);
    }
    NoMemory
}
