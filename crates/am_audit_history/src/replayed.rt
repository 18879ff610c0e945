//! A history that is replayed, call by call.
ghost use Rattle.std.specs.Prelude.{◌≡◌, [], true, false, IfOk, IsTrue, MatchOption, length};
ghost use Rattle.std.specs.Option.{option_copied};
ghost use Rattle.am_model.specs.Sound.{IsSound};
ghost use Rattle.am_history.specs.History.{IsLegal};
ghost use Rattle.am_history.specs.State.{key_of, opening};
ghost use Rattle.am_history.specs.Steps.{has_formed_row};
ghost use Rattle.am_laws_state.specs.Keys.{KeysAreKnown};
ghost use Rattle.am_audit_history.specs.Replays.{Advances, ShowsKept, call_held, call_with, replay_from, state_of};

use crate::keeper::NoKeeper;
use am_laws_state::keys_are_exact;
use am_machine::{Manager, begin_fresh};
use am_types::{Device, Entry, NoMemory, Request, Shown, Text};
use std::alloc::Global;
use std::marker::Model;

/// A call as it is made: its desk, its key, its moment, the weight of its body, and what it asks.
#[derive(Drop)]
pub struct Call<'k> {
    pub desk: u32,
    pub key: &'k Text,
    pub now: u64,
    pub weight: u32,
    pub request: Request,
}

/// A history that is replayed from the opening of a device without kept rows. Contracts see the state with
/// which it begins, and its entries so far.
#[derive(Drop)]
pub struct Replayed {
    manager: Manager<NoKeeper>,
}

impl Model for Replayed {
    ghost use Rattle.am_audit_history.specs.Replays.{Replay, replay_from};

    ghost Value = { Replay };

    ghost view = { λ r. replay_from r.manager.origin r.manager.history };
}

// One call of a manager whose keeper never fails: what is stored is kept.
fn kept_call(manager: &mut Manager<NoKeeper>, call: Call<'_>) -> Result<Shown, NoMemory>
    requires formed { IsTrue (has_formed_row call.request) }
    ensures origin { manager.new.origin ≡ manager.old.origin }
    ensures shown { IfOk result (λ shown. ShowsKept (replay_from manager.old.origin manager.old.history)
        (call_held call.entry) (replay_from manager.old.origin manager.new.history) shown) }
{
    let Call {
        desk,
        key,
        now,
        weight,
        request,
    } = call;
    manager.step(desk, key, now, weight, request)
}

// The replay after a call, if the call was stored.
fn if_stored(after: Replayed, shown: Shown) -> Option<Replayed>
    ensures { MatchOption result (shown.stored ≡ false) (λ kept. (shown.stored ≡ true) × (kept ≡ after)) }
{
    let stored = shown.stored;
    drop(shown);
    if stored {
        Some(after)
    } else {
        drop(after);
        None
    }
}

impl Replayed {
    /// The empty history of a sound device.
    pub fn begin(alloc: Global, device: Device) -> Result<Replayed, NoMemory>
        requires sound { IsSound device }
        ensures begun { IfOk result (λ replayed. replayed ≡ record { start = opening device; history = [] }) }
    {
        let manager = begin_fresh(alloc, device, NoKeeper::new())?;
        Ok(Replayed { manager })
    }

    /// How many entries there are so far. Takes no memory.
    pub fn length(&self) -> u64
        ensures count { result ≡ length self.now.history }
        ensures legal { IsLegal self.now.start self.now.history }
    {
        self.manager.length()
    }

    /// The key of the caller with this uid, after the entries so far. Takes no memory.
    pub fn key_of(&self, uid: u32) -> Option<&Text>
        ensures { option_copied result ≡ key_of (state_of self.now) uid }
    {
        self.manager.key_of(uid)
    }

    /// In the state after the entries so far each caller has one key, which is no other's. Takes no memory.
    pub fn keys_are_known(&self)
        ensures { KeysAreKnown (state_of self.now) }
    {
        self.manager.stays_sound();
        keys_are_exact();
    }

    // A copy of the key of the caller with this uid.
    fn key_copied(&self, uid: u32) -> Result<Option<Text>, NoMemory>
        ensures { IfOk result (λ key. key ≡ key_of (state_of self.now) uid) }
    {
        match self.key_of(uid) {
            Some(key) => Ok(Some(key.clone()?)),
            None => Ok(None),
        }
    }

    /// One call at the end of the history. What is stored is kept.
    pub fn call(self, call: Call<'_>) -> Result<(Replayed, Shown), NoMemory>
        requires formed { IsTrue (has_formed_row call.request) }
        ensures shown { IfOk result (λ done. ShowsKept self (call_held call.entry) done.0 done.1) }
    {
        let Replayed { mut manager } = self;
        match kept_call(&mut manager, call) {
            Ok(shown) => Ok((Replayed { manager }, shown)),
            Err(error) => {
                drop(manager);
                Err(error)
            }
        }
    }

    // The entry as a call with this key.
    fn call_of(self, key: &Text, entry: &Entry) -> Result<(Replayed, Shown), NoMemory>
        requires formed { IsTrue (has_formed_row entry.now.request) }
        ensures shown { IfOk result (λ done. ShowsKept self (call_with key.now entry.entry.now) done.0 done.1) }
    {
        match entry.request.clone() {
            Ok(request) => self.call(Call {
                desk: entry.desk,
                key,
                now: entry.now,
                weight: entry.weight,
                request,
            }),
            Err(error) => {
                drop(self);
                Err(NoMemory::from(error))
            }
        }
    }

    /// Goes on with an entry, if it may be next.
    pub fn advance(self, entry: &Entry) -> Result<Option<Replayed>, NoMemory>
        requires kept { entry.now.kept ≡ true }
        requires formed { IsTrue (has_formed_row entry.now.request) }
        ensures { IfOk result (λ after. Advances self entry.entry.now after) }
    {
        self.keys_are_known();
        match self.key_copied(entry.uid) {
            Ok(Some(key)) => {
                let called = self.call_of(&key, entry);
                drop(key);
                let (after, shown) = called?;
                Ok(if_stored(after, shown))
            }
            Ok(None) => {
                drop(self);
                Ok(None)
            }
            Err(error) => {
                drop(self);
                Err(error)
            }
        }
    }
}
