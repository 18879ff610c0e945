//! How a manager's desks are made.
ghost use Rattle.std.specs.Prelude.{◌≡◌, ◌≤◌, ◌<◌, true, [], List as Items, IfOk};
ghost use Rattle.crossbeam_queue.specs.Passes.{view, IsPassOf};
ghost use Rattle.am_history.specs.Desks.{Sharing, opening_of};
ghost use Rattle.am_history.specs.History.{IsLegal};
ghost use Rattle.am_baton.specs.Shared.{AreNew, Begun, desk_of, fresh, idle, new_mark, sharing_of};

use crate::SharedDesk;
use crate::baton::{Baton, Stand};
use crate::rule::{Begins, Cut, OneHistory};
use crate::view::Ticket;
use am_keeper::Keeper;
use am_machine::Manager;
use am_types::NoMemory;
use crossbeam_queue::{Pass, RuledArrayQueue};
use std::alloc::Global;
use std::sync::{Arc, Mutex, Wait};

/// Makes 1 to 64 desks of one manager, numbered from 0. After `NoMemory` the manager is dropped.
pub fn share<R: Wait + Clone + Drop + Send, K: Keeper>(
    rt: &R,
    alloc: Global,
    manager: Manager<K>,
    desks: u32,
) -> Result<Vec<SharedDesk<R, K>>, NoMemory>
    requires some { 1 ≤ desks }
    requires few { desks ≤ 64 }
    ensures made { IfOk result (λ made. (sharing : Sharing) × (sharing.desks ≡ desks)
        × (sharing.handed ≡ manager.history) × AreNew manager.origin sharing made.items) }
    ensures legal { IsLegal (opening_of manager.origin) manager.history }
{
    // The count of the entries isn't used: it tells the contract that the history is legal.
    let _ = manager.length();
    let (stand, pass) = begin(rt, alloc, manager, desks)?;
    let stand = match Arc::new(alloc, stand) {
        Ok(stand) => stand,
        Err(_) => return Err(NoMemory),
    };
    all_desks(rt, alloc, &stand, pass, desks)
}

// Lays the manager down, with the pass of desk 0.
fn begin<R: Wait, K: Keeper>(
    rt: &R,
    alloc: Global,
    manager: Manager<K>,
    desks: u32,
) -> Result<(Stand<K>, Pass<Baton<K>, Ticket>), NoMemory>
    requires some { 1 ≤ desks }
    ensures pass { IfOk result (λ made. IsPassOf made.0.queue made.1) }
    ensures first { IfOk result (λ made. view made.1 ≡ idle true (new_mark
        (record { origin = manager.origin; desks = desks; handed = manager.history }) 0) []) }
{
    let manager = Box::new(alloc, manager)?;
    let (queue, mut pass) = RuledArrayQueue::<Baton<K>, Ticket, OneHistory>::ruled(alloc, 1)?;
    let stand = Stand {
        queue,
        gate: Mutex::new(()),
    };
    lay(rt, &stand, &mut pass, Baton { manager, desks });
    Ok((stand, pass))
}

// Puts the manager in for the first time.
fn lay<R: Wait, K: Keeper>(
    rt: &R,
    stand: &Stand<K>,
    pass: &mut Pass<Baton<K>, Ticket>,
    baton: Baton<K>,
)
    requires pass { IsPassOf stand.now.queue pass.old }
    requires fresh { view pass.old ≡ fresh }
    requires some { 1 ≤ baton.desks }
    ensures pass { IsPassOf stand.now.queue pass.new × (pass.new.table_id ≡ pass.old.table_id) }
    ensures begun { Begun (view pass.old) baton (view pass.new) }
{
    match stand.queue.push_as::<Begins, R>(rt, pass, baton) {
        Ok(()) => (),
        Err(_) => unreachable!(),
    }
}

// All desks, made one after the other from the pass of desk 0.
fn all_desks<R: Wait + Clone + Drop, K: Keeper>(
    rt: &R,
    alloc: Global,
    stand: &Arc<Stand<K>>,
    mut pass: Pass<Baton<K>, Ticket>,
    desks: u32,
) -> Result<Vec<SharedDesk<R, K>>, NoMemory>
    requires pass { IsPassOf stand.now.value.queue pass }
    requires first { view pass ≡ idle true (new_mark (view pass).mark.start 0) [] }
    requires desks { desks ≡ (view pass).mark.start.desks }
    requires some { 1 ≤ desks }
    ensures { IfOk result (λ made. let start = (view pass).mark.start in
        AreNew start.origin (sharing_of pass.table_id start) made.items) }
{
    let mut made = Vec::new(alloc);
    for number in 0..desks - 1 {
        let next = stand.queue.another::<Cut>(&mut pass);
        made.reserve(1)?;
        made.push_reserved(desk(rt, stand, number, pass)?);
        pass = next;
    }
    made.reserve(1)?;
    made.push_reserved(desk(rt, stand, desks - 1, pass)?);
    Ok(made)
}

// The desk for which the pass stands.
fn desk<R: Wait + Clone + Drop, K: Keeper>(
    rt: &R,
    stand: &Arc<Stand<K>>,
    number: u32,
    pass: Pass<Baton<K>, Ticket>,
) -> Result<SharedDesk<R, K>, NoMemory>
    requires pass { IsPassOf stand.now.value.queue pass }
    requires idle { view pass ≡ idle (view pass).makes (view pass).mark [] }
    requires number { number ≡ (view pass).mark.number }
    ensures { IfOk result (λ made. made ≡ desk_of pass.table_id (view pass).mark) }
{
    let rt = rt.clone()?;
    let stand = Arc::try_clone(stand)?;
    Ok(SharedDesk {
        rt,
        number,
        stand,
        pass,
    })
}
