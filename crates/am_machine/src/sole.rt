//! A desk over a manager of its own.
ghost use Rattle.std.specs.Prelude.{◌≡◌};
ghost use Rattle.am_history.specs.Desks.{opening_of};
ghost use Rattle.am_history.specs.History.{IsLegal};

use crate::Manager;
use am_desk::{Desk, DeskCall};
use am_keeper::Keeper;
use am_types::{NoMemory, Shown};
use std::marker::Model;

/// The only desk of a manager. Its number is 0, and it has seen the manager's whole history.
#[derive(Drop)]
pub struct SoleDesk<K: Keeper> {
    manager: Manager<K>,
    // How many entries the manager had when it was handed over. Only contracts read it.
    handed: u64,
}

impl<K: Keeper> Model for SoleDesk<K> {
    ghost use Rattle.std.specs.Prelude.{◌≤◌, length, take};
    ghost use Rattle.am_machine.specs.Managed.{Served};

    ghost Value = { Served K };

    ghost view = { λ d. record { managed = d.manager; handed = take d.handed d.manager.history } };

    ghost invariant = { λ d. d.handed ≤ length d.manager.history };
}

impl<K: Keeper> SoleDesk<K> {
    /// The desk of this manager. Takes no memory.
    pub fn new(manager: Manager<K>) -> SoleDesk<K>
        ensures made { result ≡ record { managed = manager; handed = manager.history } }
        ensures legal { IsLegal (opening_of manager.origin) manager.history }
    {
        let handed = manager.length();
        SoleDesk { manager, handed }
    }

    /// Hands the manager out. Its history is what the desk has seen. Takes no memory.
    pub fn into_manager(self) -> Manager<K>
        ensures { result ≡ self.managed }
    {
        self.manager
    }
}

impl<K: Keeper> Desk for SoleDesk<K> {
    ghost use Rattle.std.specs.Prelude.{[], false};

    ghost view = { λ d. record {
      origin = d.managed.origin;
      number = 0;
      sharing = record { id = []; desks = 1; handed = d.handed };
      seen = d.managed.history;
    } };

    // Nobody else makes calls for which it could wait.
    ghost waits = { false };

    fn call(&mut self, asked: DeskCall<'_>) -> Result<Shown, NoMemory> {
        self.manager
            .step(0, asked.key, asked.now, asked.weight, asked.request)
    }
}
