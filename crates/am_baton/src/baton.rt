//! What goes from desk to desk, and where it lies in between.
ghost use Rattle.std.specs.Prelude.{◌≡◌};
ghost use Rattle.crossbeam_queue.specs.Passes.{ruled_capacity};

use crate::rule::OneHistory;
use crate::view::Ticket;
use am_keeper::Keeper;
use am_machine::Manager;
use crossbeam_queue::RuledArrayQueue;
use std::sync::Mutex;

/// A manager, and how many desks share it. It is handed over with each call, so the manager, which takes some
/// kilobytes, lies in a box.
#[derive(Drop)]
pub struct Baton<K: Keeper> {
    pub(crate) manager: Box<Manager<K>>,
    pub(crate) desks: u32,
}

/// Where the manager lies between two calls.
#[derive(Drop)]
pub struct Stand<K: Keeper> {
    pub(crate) queue: RuledArrayQueue<Baton<K>, Ticket, OneHistory>,
    // A call holds it from before it takes the manager until it has put it back, so that nobody waits at the queue.
    pub(crate) gate: Mutex<()>,
    pub ghost one_place: { ruled_capacity queue ≡ 1 },
}
