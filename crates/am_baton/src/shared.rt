//! A desk that shares its manager with others.
ghost use Rattle.std.specs.Prelude.{◌≡◌, ◌≤◌, true, [], length};
ghost use Rattle.crossbeam_queue.specs.Passes.{view, IsPassOf};
ghost use Rattle.am_baton.specs.Shared.{AddsOne, Put, Taken, holding, idle};

use crate::baton::{Baton, Stand};
use crate::rule::{Puts, Takes};
use crate::view::Ticket;
use am_desk::{Desk, DeskCall};
use am_keeper::Keeper;
use am_types::{NoMemory, Shown};
use crossbeam_queue::Pass;
use std::marker::Model;
use std::sync::{Arc, MutexGuard, Wait};
use std::thread;

/// One of the desks that share a manager. Its calls may wait for those of the others.
#[derive(Drop)]
pub struct SharedDesk<R: Wait, K: Keeper> {
    pub(crate) rt: R,
    pub(crate) number: u32,
    pub(crate) stand: Arc<Stand<K>>,
    pub(crate) pass: Pass<Baton<K>, Ticket>,
}

impl<R: Wait, K: Keeper> Model for SharedDesk<R, K> {
    ghost use Rattle.std.specs.Prelude.{◌≡◌, []};
    ghost use Rattle.crossbeam_queue.specs.Passes.{view as known, IsPassOf};
    ghost use Rattle.am_history.specs.Desks.{DeskView};
    ghost use Rattle.am_baton.specs.Shared.{desk_of, idle};

    ghost Value = { DeskView };

    ghost view = { λ d. desk_of d.pass.table_id (known d.pass).mark };

    // The pass belongs to the queue in which the manager lies, and stands for this desk only.
    ghost invariant = { λ d. IsPassOf d.stand.value.queue d.pass
        × (known d.pass ≡ idle (known d.pass).makes (known d.pass).mark [])
        × (d.number ≡ (known d.pass).mark.number) };
}

// Waits until the manager is there, and takes it.
fn take<R: Wait, K: Keeper>(rt: &R, stand: &Stand<K>, pass: &mut Pass<Baton<K>, Ticket>) -> Baton<K>
    requires pass { IsPassOf stand.now.queue pass.old }
    requires live { (view pass.old).live ≡ true }
    ensures pass { IsPassOf stand.now.queue pass.new × (pass.new.table_id ≡ pass.old.table_id) }
    ensures taken { Taken (view pass.old) result (view pass.new) }
{
    for _ in rt.forever() {
        if let Some(baton) = stand.queue.try_pop_as::<Takes>(pass) {
            return baton;
        }
        thread::yield_now();
    }
    unreachable!()
}

// Puts the manager back.
fn give<R: Wait, K: Keeper>(
    rt: &R,
    stand: &Stand<K>,
    pass: &mut Pass<Baton<K>, Ticket>,
    baton: Baton<K>,
)
    requires pass { IsPassOf stand.now.queue pass.old }
    requires holds { view pass.old ≡ holding (view pass.old).makes (view pass.old).mark [] }
    requires origin { baton.manager.value.origin ≡ (view pass.old).mark.start.origin }
    requires desks { baton.desks ≡ (view pass.old).mark.start.desks }
    requires adds { AddsOne (view pass.old).mark.number (view pass.old).mark.seen baton.manager.value.history }
    ensures pass { IsPassOf stand.now.queue pass.new × (pass.new.table_id ≡ pass.old.table_id) }
    ensures put { Put (view pass.old) baton (view pass.new) }
{
    match stand.queue.push_as::<Puts, R>(rt, pass, baton) {
        Ok(()) => (),
        Err(_) => unreachable!(),
    }
}

// Waits until it is this desk's turn and the manager has so many entries, and takes it. The turn lasts as long as the
// guard.
fn take_filled<'s, R: Wait, K: Keeper>(
    rt: &R,
    stand: &'s Stand<K>,
    pass: &mut Pass<Baton<K>, Ticket>,
    least: u64,
) -> (MutexGuard<'s, ()>, Baton<K>)
    requires pass { IsPassOf stand.now.queue pass.old }
    requires idle { view pass.old ≡ idle (view pass.old).makes (view pass.old).mark [] }
    ensures pass { IsPassOf stand.now.queue pass.new × (pass.new.table_id ≡ pass.old.table_id) }
    ensures taken { Taken (view pass.old) result.1 (view pass.new) }
    ensures filled { least ≤ length result.1.manager.value.history }
{
    for _ in rt.forever() {
        let turn = stand.gate.lock(rt);
        let baton = take(rt, stand, pass);
        if baton.manager.length() >= least {
            return (turn, baton);
        }
        give(rt, stand, pass, baton);
        drop(turn);
        thread::yield_now();
    }
    unreachable!()
}

impl<R: Wait, K: Keeper> Desk for SharedDesk<R, K> {
    ghost use Rattle.std.specs.Prelude.{true};

    ghost view = { λ d. d };

    ghost waits = { true };

    fn call(&mut self, asked: DeskCall<'_>) -> Result<Shown, NoMemory> {
        let stand: &Stand<K> = &self.stand;
        let (_turn, mut baton) = take_filled(&self.rt, stand, &mut self.pass, asked.least);
        let shown = baton.manager.step(
            self.number,
            asked.key,
            asked.now,
            asked.weight,
            asked.request,
        );
        give(&self.rt, stand, &mut self.pass, baton);
        shown
    }
}
