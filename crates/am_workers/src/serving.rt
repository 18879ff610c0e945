//! A manager that many workers serve.
ghost use Rattle.std.specs.Prelude.{◌≡◌, ◌≤◌, ℕ, Some, IfOk, IfSome, OnErr, slice_get, vec_len};
ghost use Rattle.am_network.specs.Links.{IsNewGate};
ghost use Rattle.am_workers.specs.Work.{gate_of};
ghost use Rattle.am_workers.specs.Serving.{IsUnserved, MayReleaseAll, ServesAll, network_of};

use crate::worker::{Rooms, dismiss, dismiss_unserved, hire, rooms_for, totals_of, work_all};
use crate::working::Worked;
use am_baton::{close, share};
use am_keeper::Keeper;
use am_machine::Manager;
use am_network::{Acceptor, Network};
use am_outside::Clock;
use am_types::NoMemory;
use std::alloc::Global;
use std::collections::VecDeque;
use std::sync::Wait;
use std::thread::Threads;

/// Serves a manager by as many workers as a network answered gates, 1 to 64, each of which serves the links of its gate
/// on a desk of its own, of which it takes at most `most` if that is given, which is at least 1. They work at the same
/// time, each in a thread of its own if there are threads, and with a clock of its own that tells what the given one
/// tells. Once all have ended, the gates are handed back to the network, in their order, and the manager comes back with what the
/// workers did.
///
/// # Errors
/// `NoMemory` if memory ran out, which is before the first link is handed out. The gates are handed back to the network
/// as they were then, and the manager is dropped.
pub fn serve<R, K: Keeper + Send, N: Network, C: Clock>(
    rt: &R,
    alloc: Global,
    manager: Manager<K>,
    network: &mut N,
    gates: Vec<N::Gate>,
    clock: &C,
    most: Option<u32>,
) -> Result<(Manager<K>, Worked), NoMemory>
where
    R: Threads + Wait + Clone + Drop + Send + Sync,
    requires some { 1 ≤ vec_len gates }
    requires few { vec_len gates ≤ 64 }
    requires new { (k : ℕ) (gate : N.Gate) → slice_get gates.items k ≡ Some gate
        → IsNewGate (gate_of N.Gate.Acceptor gate) }
    requires may { MayReleaseAll (N.listening network.old) (vec_len gates) }
    requires most { IfSome most (λ m. 1 ≤ m) }
    ensures serves { IfOk result (λ done. ServesAll most (vec_len gates)
        (record { origin = manager.origin; history = manager.history; clock = C.moments clock.now })
        (record { history = done.0.history; totals = done.1 })
        (network_of N.Network network.old) (network_of N.Network network.new)) }
    ensures origin { IfOk result (λ done. done.0.origin ≡ manager.origin) }
    ensures unserved { OnErr result (IsUnserved (vec_len gates)
        (network_of N.Network network.old) (network_of N.Network network.new)) }
{
    let count = gates.len();
    let Ok(desks) = share(rt, alloc, manager, count as u32) else {
        return Err(dismiss_unserved(network, gates));
    };
    let Ok(rooms) = rooms_for(alloc, count) else {
        return Err(dismiss_unserved(network, gates));
    };
    let Rooms {
        workers,
        desks: room,
        buffers,
    } = rooms;
    let mut workers = hire(clock, desks, gates, buffers, workers);
    work_all(rt, alloc, workers.as_mut_slice(), most);
    let totals = totals_of(workers.as_slice());
    let desks = dismiss(network, VecDeque::from_vec(workers), room);
    let manager = close(desks);
    // The count of the entries isn't used: it tells the contract that the history is legal.
    let _ = manager.length();
    Ok((manager, totals))
}
