//! How a shared manager is taken from its desks.
ghost use Rattle.std.specs.Prelude.{◌≡◌, ◌<◌, ℕ, ◌++◌, ◌∷◌, [], All, false};
ghost use Rattle.crossbeam_queue.specs.Passes.{view, IsPassOf};
ghost use Rattle.am_history.specs.Desks.{DeskView, Sharing};
ghost use Rattle.am_history.specs.History.{Extends, entries_of};
ghost use Rattle.am_baton.specs.Shared.{AreAll, IsClosed, IsNumbered, Mark, StandsFor, desk_of, idle, key_of};

use crate::SharedDesk;
use crate::baton::{Baton, Stand};
use crate::rule::{Cut, Takes};
use crate::view::Ticket;
use am_keeper::Keeper;
use am_machine::Manager;
use crossbeam_queue::Pass;
use std::sync::Wait;

/// Takes the manager from all its desks, in the order of their numbers. It waits for nobody, and takes no memory.
pub fn close<R: Wait + Clone + Drop + Send, K: Keeper>(
    mut desks: Vec<SharedDesk<R, K>>,
) -> Manager<K>
    requires all { (sharing : Sharing) × AreAll sharing desks.items }
    ensures origin { All (λ (desk : DeskView). result.origin ≡ desk.origin) desks.items }
    ensures seen { All (λ (desk : DeskView). Extends desk.sharing.handed desk.seen × Extends desk.seen result.history)
        desks.items }
    ensures own { All (λ (desk : DeskView). entries_of desk.number result.history ≡ entries_of desk.number desk.seen)
        desks.items }
    ensures others { All (λ (desk : DeskView). IsNumbered desk.sharing.desks desk.sharing.handed result.history)
        desks.items }
{
    match desks.pop() {
        Some(last) => close_with(last, desks),
        None => unreachable!(),
    }
}

// The same, but the last desk is given apart.
fn close_with<R: Wait + Drop, K: Keeper>(
    last: SharedDesk<R, K>,
    mut desks: Vec<SharedDesk<R, K>>,
) -> Manager<K>
    requires all { AreAll last.sharing (desks.items ++ last ∷ []) }
    ensures { All (λ (desk : DeskView). IsClosed desk result) (desks.items ++ last ∷ []) }
{
    let SharedDesk {
        rt,
        number: _,
        stand,
        mut pass,
    } = last;
    while let Some(desk) = desks.pop() {
        join(&stand, &mut pass, desk);
    }
    take_last(&rt, &stand, &mut pass)
}

// Takes in the pass of one more desk.
fn join<R: Wait + Drop, K: Keeper>(
    stand: &Stand<K>,
    pass: &mut Pass<Baton<K>, Ticket>,
    desk: SharedDesk<R, K>,
)
    requires pass { IsPassOf stand.now.queue pass.old }
    requires idle { view pass.old ≡ idle (view pass.old).makes (view pass.old).mark (view pass.old).ended }
    requires same { desk.sharing.id ≡ key_of pass.old.table_id }
    ensures pass { IsPassOf stand.now.queue pass.new × (pass.new.table_id ≡ pass.old.table_id) }
    ensures joined { (mark : Mark) × (desk ≡ desk_of pass.old.table_id mark)
        × (view pass.new ≡ idle false (view pass.old).mark (mark ∷ (view pass.old).ended)) }
{
    let SharedDesk {
        rt: _,
        number: _,
        stand: _,
        pass: theirs,
    } = desk;
    stand.queue.absorb::<Cut>(pass, theirs);
}

// Takes the manager by the pass that stands for all desks.
fn take_last<R: Wait, K: Keeper>(
    rt: &R,
    stand: &Stand<K>,
    pass: &mut Pass<Baton<K>, Ticket>,
) -> Manager<K>
    requires pass { IsPassOf stand.now.queue pass.old }
    requires idle { view pass.old ≡ idle (view pass.old).makes (view pass.old).mark (view pass.old).ended }
    requires all { (k : ℕ) → k < (view pass.old).mark.start.desks → StandsFor (view pass.old) k }
    ensures { All (λ (mark : Mark). IsClosed (desk_of pass.old.table_id mark) result)
        ((view pass.old).ended ++ (view pass.old).mark ∷ []) }
{
    match stand.queue.pop_as::<Takes, R>(rt, pass) {
        Some(baton) => Box::into_inner(baton.manager),
        None => unreachable!(),
    }
}
