//! Pairs of numbers in order.
ghost use Rattle.std.specs.Prelude.{◌≡◌, ℕ, ◌&&◌, ◌||◌, not, [], IfOk, OnOk, OnErr, MatchOption};
ghost use Rattle.am_queue_normal.specs.Pairs.{has, is_same, IsBare, IsLeast, IsNext, NoneFrom};

use std::alloc::{AllocError, Global};
use std::collections::BTreeSet;
use std::marker::Model;

/// Pairs of a key and a number, by key and then by number.
#[derive(Drop)]
pub(crate) struct Pairs {
    keys: BTreeSet<(u64, u64)>,
}

impl Model for Pairs {
    ghost use Rattle.std.specs.Prelude.{ℕ, List};

    ghost Value = { List (ℕ × ℕ) };

    ghost view = { λ p. p.keys.keys };
}

impl Pairs {
    /// No pairs. Takes no memory.
    pub(crate) fn new(alloc: Global) -> Self
        ensures { result ≡ [] }
    {
        Pairs {
            keys: BTreeSet::new(alloc),
        }
    }

    /// Puts a pair in its place. If memory runs out, nothing changes.
    pub(crate) fn add(&mut self, key: u64, number: u64) -> Result<(), AllocError>
        ensures ok { OnOk result ((key' number' : ℕ)
            → has self.new key' number' ≡ (is_same key number key' number' || has self.old key' number')) }
        ensures err { OnErr result (self.new ≡ self.old) }
    {
        self.keys.insert((key, number))?;
        Ok(())
    }

    /// Removes a pair, if it is there. Takes no memory.
    pub(crate) fn remove(&mut self, key: u64, number: u64)
        ensures { (key' number' : ℕ)
            → has self.new key' number' ≡ (not (is_same key number key' number') && has self.old key' number') }
    {
        self.keys.remove(&(key, number));
    }

    /// The first pair. Takes no memory.
    pub(crate) fn first(&self) -> Option<(u64, u64)>
        ensures { MatchOption result (IsBare self.now) (IsLeast self.now) }
    {
        match self.keys.first() {
            None => None,
            Some(pair) => Some(*pair),
        }
    }

    /// The least number of a key, from a given one on. Takes no memory.
    pub(crate) fn next(&self, key: u64, from: u64) -> Option<u64>
        ensures { MatchOption result (NoneFrom (has self.now key) from) (IsNext (has self.now key) from) }
    {
        match self.keys.range((key, from)..).next() {
            None => None,
            Some(pair) => { if pair.0 == key { Some(pair.1) } else { None } }
        }
    }

    /// The same pairs.
    pub(crate) fn copy(&self) -> Result<Self, AllocError>
        ensures { IfOk result (λ copy. copy ≡ self.now) }
    {
        Ok(Pairs {
            keys: self.keys.clone()?,
        })
    }
}
