//! The manager: the live state of a device, and the history of the calls that made it.
ghost use Rattle.std.specs.Prelude.{◌≡◌, ◌≤◌, length, count_by, OnOk, Some};
ghost use Rattle.std.specs.Option.{option_copied};
ghost use Rattle.am_keeper.specs.declared.rows.Rows.{Rows as Told};
ghost use Rattle.am_history.specs.Desks.{opening_of};
ghost use Rattle.am_history.specs.History.{IsLegal, replay};
ghost use Rattle.am_history.specs.State.{key_of};
ghost use Rattle.am_laws_kept.specs.Found.{rows_after};
ghost use Rattle.am_machine.specs.Managed.{is_unkept};

use crate::archive::Archive;
use crate::opened::Opened;
use am_keeper::Keeper;
use am_live::Live;
use am_types::{NoMemory, Text, drop_parts};
use std::marker::Model;

/// The activity manager of one device. Contracts see where it comes from, its history, how many more
/// calls it has room for, and its keeper.
pub struct Manager<K: Keeper> {
    pub(crate) opened: Opened,
    pub(crate) live: Live,
    pub(crate) history: Archive,
    // What the entries weigh together, in bytes.
    pub(crate) weight: u64,
    pub(crate) keeper: K,
}

impl<K: Keeper> Model for Manager<K> {
    ghost use Rattle.am_machine.specs.Managed.{Managed, Holds, HoldsKept, origin_at};

    ghost Value = { Managed K };

    ghost view = { λ m. record {
      origin = origin_at m.opened (K.place m.keeper);
      history = m.history.entries;
      spare = m.history.spare;
      keeper = m.keeper;
    } };

    // The live state is the one that the history leaves, and the keeper counted what it couldn't keep.
    ghost invariant = { λ m.
        Holds (origin_at m.opened (K.place m.keeper)) m.live m.history.entries m.weight
        × HoldsKept K.Keeper (origin_at m.opened (K.place m.keeper)) m.history.entries m.keeper };
}

impl<K: Keeper> Drop for Manager<K> {
    fn drop(self) {
        drop_parts!(self, Manager: opened live history weight keeper);
    }
}

impl<K: Keeper> Manager<K> {
    /// Makes room for the entries of so many further calls.
    pub fn reserve(&mut self, calls: usize) -> Result<(), NoMemory>
        ensures room { OnOk result (calls ≤ self.new.spare) }
        ensures grows { self.old.spare ≤ self.new.spare }
        ensures same { (self.new.origin ≡ self.old.origin) × (self.new.history ≡ self.old.history)
            × (self.new.keeper ≡ self.old.keeper) }
    {
        self.history.reserve(calls)
    }

    /// The entries of the history. Takes no memory.
    pub fn length(&self) -> u64
        ensures count { result ≡ length self.now.history }
        ensures legal { IsLegal (opening_of self.now.origin) self.now.history }
    {
        self.history.len() as u64
    }

    /// The key of the caller with the uid after its history, if there is one. Takes no memory.
    pub fn key_of(&self, uid: u32) -> Option<&Text>
        ensures { option_copied result ≡ key_of (replay (opening_of self.now.origin) self.now.history) uid }
    {
        self.live.key_of(uid)
    }

    /// Its keeper. Takes no memory.
    pub fn keeper(&self) -> &K
        ensures same { result.now ≡ self.now.keeper }
        ensures place { K.place result.now ≡ self.now.origin.place }
        ensures unkept { count_by is_unkept self.now.history ≤ K.faults result.now }
        ensures found { K.is_honest result.now → (told : Told) → K.rows result.now ≡ Some told
            → told ≡ rows_after (opening_of self.now.origin) self.now.origin.rows self.now.history }
    {
        &self.keeper
    }

    /// Hands its keeper out. Takes no memory.
    pub fn into_keeper(self) -> K
        ensures same { result ≡ self.keeper }
        ensures place { K.place result ≡ self.origin.place }
        ensures unkept { count_by is_unkept self.history ≤ K.faults result }
        ensures found { K.is_honest result → (told : Told) → K.rows result ≡ Some told
            → told ≡ rows_after (opening_of self.origin) self.origin.rows self.history }
    {
        let Manager {
            opened: _,
            live: _,
            history: _,
            weight: _,
            keeper,
        } = self;
        keeper
    }
}
