//! Records of pending intents.
ghost use Rattle.std.specs.Prelude.{◌≡◌, ◌==◌, OnOk, OnErr, length, nat_le};
ghost use Rattle.std.specs.List.{list_any};
ghost use Rattle.am_pending.specs.Records.{held_by, is_holder_of, let_go_by, unheld, with_extras};

use crate::key::Key;
use am_types::{List, Named};
use std::alloc::{AllocError, Global};
use std::marker::Model;

/// The most holders of a token, not counting its creator.
const MOST_HOLDERS: usize = 64;

/// A record: its key, with the whole intent, and the uids other than the creator's that hold its token.
#[derive(Drop)]
pub struct Record {
    key: Key,
    holders: Vec<u32>,
}

impl Model for Record {
    ghost use Rattle.am_pending.specs.Records.{Kept};

    ghost Value = { Kept };

    ghost view = { λ r. record { key = r.key; holders = r.holders.items } };
}

/// The uid is among the holders.
fn was_given(holders: &[u32], uid: u32) -> bool
    ensures { result ≡ list_any (λ holder. holder == uid) holders.now }
{
    holders.iter().any(|holder| *holder == uid)
}

impl Record {
    /// A record without holders. Takes no memory.
    pub fn new(alloc: Global, key: Key) -> Record
        ensures { result ≡ unheld key }
    {
        Record {
            key,
            holders: Vec::new(alloc),
        }
    }

    /// The key, with the whole intent.
    pub fn key(&self) -> &Key
        ensures { result.now ≡ self.now.key }
    {
        &self.key
    }

    /// The uid that made the record.
    pub fn creator(&self) -> u32
        ensures { result ≡ self.now.key.creator }
    {
        self.key.creator
    }

    /// Whether the uid made the record or was given its token.
    pub fn is_holder(&self, uid: u32) -> bool
        ensures { result ≡ is_holder_of self.now uid }
    {
        self.creator() == uid || was_given(self.holders.as_slice(), uid)
    }

    /// Whether no further uid can hold the token.
    pub fn is_full(&self) -> bool
        ensures { result ≡ nat_le 64 (length self.now.holders) }
    {
        self.holders.len() >= MOST_HOLDERS
    }

    /// Adds a holder. If memory runs out, nothing changes.
    pub fn hold(&mut self, to: u32) -> Result<(), AllocError>
        ensures ok { OnOk result (self.new ≡ held_by to self.old) }
        ensures err { OnErr result (self.new ≡ self.old) }
    {
        self.holders.push(to)?;
        Ok(())
    }

    /// Gives the intent other extras. Takes no memory.
    pub fn set_extras(&mut self, extras: List<Named>)
        ensures { self.new ≡ with_extras extras self.old }
    {
        self.key.intent.extras = extras;
    }

    /// Removes a holder. Takes no memory.
    pub fn let_go(&mut self, uid: u32)
        ensures { self.new ≡ let_go_by uid self.old }
    {
        self.holders.retain(|holder| *holder != uid);
    }
}
