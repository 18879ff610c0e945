//! Records in the order of their tokens.
ghost use Rattle.std.specs.Prelude.{◌≡◌, ℕ, Some, Err, IfOk, IsOk, ◌+◌, ◌<◌, ◌==◌, ◌++◌, ◌∷◌, [], not, All, map, filter, OnOk, OnErr, option_map};
ghost use Rattle.std.specs.Option.{option_copied};
ghost use Rattle.am_model.specs.Pendings.{Pending, cancel, give, updated, without_holder, without_token};
ghost use Rattle.am_pending.specs.Answers.{IsChange};
ghost use Rattle.am_pending.specs.Records.{before, pending_of, record_in};

use crate::record::Record;
use am_types::{List, Named, PendingFault, Steps};
use std::alloc::{AllocError, Global};
use std::collections::BTreeMap;
use std::marker::Model;
use std::sync::ledger::Ledger;

/// Records under their tokens. Reading, changing or removing one of them by its token takes a step. Contracts see them
/// as the model does, in the order of their tokens.
#[derive(Drop)]
pub struct Records {
    by_token: BTreeMap<u64, Record, Global>,
}

impl Model for Records {
    ghost use Rattle.std.specs.Prelude.{List as Items};
    ghost use Rattle.am_model.specs.Pendings.{Pending};
    ghost use Rattle.am_pending.specs.Records.{pendings_of};

    ghost Value = { Items Pending };

    ghost view = { λ r. pendings_of r.by_token.entries };
}

impl Records {
    /// No records. Takes no memory.
    pub fn new(alloc: Global) -> Records
        ensures { result ≡ [] }
    {
        Records {
            by_token: BTreeMap::new(alloc),
        }
    }

    /// The record with this token.
    pub fn read<L: Ledger>(&self, token: u64, steps: &mut Steps<L>) -> Option<&Record>
        ensures found { option_map (pending_of token) (option_copied result) ≡ record_in token self.now }
        ensures steps { steps.new ≡ steps.old + 1 }
    {
        steps.tick();
        self.by_token.get(&token)
    }

    /// Adds a record under a token above all others. If memory runs out, nothing changes.
    pub fn push(&mut self, token: u64, kept: Record) -> Result<(), AllocError>
        requires { All (λ (other : Pending). other.token < token) self.old }
        ensures ok { OnOk result (self.new ≡ self.old ++ pending_of token kept ∷ []) }
        ensures err { OnErr result (self.new ≡ self.old) }
    {
        match self.by_token.insert(token, kept) {
            Ok(_) => Ok(()),
            Err(failed) => {
                drop(failed);
                Err(AllocError)
            }
        }
    }

    /// Removes the record with this token. Takes no memory.
    pub fn take<L: Ledger>(&mut self, token: u64, steps: &mut Steps<L>) -> Option<Record>
        ensures found { option_map (pending_of token) result ≡ record_in token self.old }
        ensures others { self.new ≡ without_token self.old token }
        ensures steps { steps.new ≡ steps.old + 1 }
    {
        steps.tick();
        self.by_token.remove(&token)
    }

    /// Removes the record with this token for its creator, looking it up once. Refusals: `NoToken`; `NotCreator`. Takes
    /// no memory.
    pub fn take_own<L: Ledger>(
        &mut self,
        token: u64,
        uid: u32,
        steps: &mut Steps<L>,
    ) -> Result<Record, PendingFault>
        ensures found { IfOk result (λ gone. record_in token self.old ≡ Some (pending_of token gone)) }
        ensures others { OnOk result (self.new ≡ without_token self.old token) }
        ensures err { OnErr result (self.new ≡ self.old) }
        ensures answer { (next : ℕ) → IsChange result (before self.old next) (before self.new next)
            (cancel (before self.old next) token uid) }
        ensures memory { (result ≡ Err PendingFault.NoMemory) → ⊥ }
        ensures steps { steps.new ≡ steps.old + 1 }
    {
        steps.tick();
        let Some(kept) = self.by_token.get(&token) else {
            return Err(PendingFault::NoToken);
        };
        if kept.creator() != uid {
            return Err(PendingFault::NotCreator);
        }
        let Some(gone) = self.by_token.remove(&token) else {
            return Err(PendingFault::NoToken);
        };
        Ok(gone)
    }

    /// Gives the intent of the token's record other extras. Takes no memory.
    pub fn set_extras<L: Ledger>(&mut self, token: u64, extras: List<Named>, steps: &mut Steps<L>)
        ensures changed { self.new ≡ map (updated token extras) self.old }
        ensures steps { steps.new ≡ steps.old + 1 }
    {
        steps.tick();
        let Some(kept) = self.by_token.get_mut(&token) else {
            drop(extras);
            return;
        };
        kept.set_extras(extras);
    }

    /// Gives a token to another uid, by its creator. Looks the record up once, and leaves the
    /// step to the caller. If memory runs out, nothing changes.
    pub fn give(&mut self, token: u64, uid: u32, to: u32) -> Result<(), PendingFault>
        ensures answer { (next : ℕ) → IsChange result (before self.old next) (before self.new next)
            (give (before self.old next) token uid to) }
        ensures ran_out { result ≡ Err PendingFault.NoMemory
            → (next : ℕ) → IsOk (give (before self.old next) token uid to) }
    {
        let Some(kept) = self.by_token.get_mut(&token) else {
            return Err(PendingFault::NoToken);
        };
        if uid != kept.creator() {
            return Err(PendingFault::NotCreator);
        }
        if kept.is_holder(to) {
            return Ok(());
        }
        if kept.is_full() {
            return Err(PendingFault::HoldersFull);
        }
        if kept.hold(to).is_err() {
            return Err(PendingFault::NoMemory);
        }
        Ok(())
    }

    /// Removes the records of a creator. Takes no memory.
    pub fn forget_creator(&mut self, uid: u32)
        ensures { self.new ≡ filter (λ (kept : Pending). not (kept.creator == uid)) self.old }
    {
        self.by_token.retain(|_, kept| kept.creator() != uid);
    }

    /// Removes a holder from each record. Takes no memory.
    pub fn forget_holder(&mut self, uid: u32)
        ensures { self.new ≡ map (without_holder uid) self.old }
    {
        self.by_token.retain(|_, kept| {
            kept.let_go(uid);
            true
        });
    }
}
