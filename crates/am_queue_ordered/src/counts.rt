//! A number for each app.
ghost use Rattle.std.specs.Prelude.{◌≡◌, ℕ, ◌+◌, ◌^◌, ◌<◌, [], IfOk, OnOk, OnErr};
ghost use Rattle.am_queue_ordered.specs.Counts.{count_of, one_for};

use std::alloc::{AllocError, Global};
use std::collections::BTreeMap;
use std::marker::Model;

/// A number for each app; 0 if it was never raised.
#[derive(Drop)]
pub struct Counts {
    by_uid: BTreeMap<u32, u32>,
}

impl Model for Counts {
    ghost use Rattle.std.specs.Prelude.{ℕ, List};

    ghost Value = { List (ℕ × ℕ) };

    ghost view = { λ c. c.by_uid.entries };
}

impl Counts {
    /// Takes no memory.
    pub fn new(alloc: Global) -> Self
        ensures { result ≡ [] }
    {
        Counts {
            by_uid: BTreeMap::new(alloc),
        }
    }

    /// The number of an app. Takes no memory.
    pub fn get(&self, uid: u32) -> u32
        ensures { result ≡ count_of self.now uid }
    {
        self.by_uid.get(&uid).copied().unwrap_or(0)
    }

    /// Raises the number of an app by one. If memory runs out, nothing changes.
    pub fn raise(&mut self, uid: u32) -> Result<(), AllocError>
        requires { count_of self.old uid + 1 < 2 ^ 32 }
        ensures ok { OnOk result ((other : ℕ) → count_of self.new other ≡ count_of self.old other + one_for uid other) }
        ensures err { OnErr result (self.new ≡ self.old) }
    {
        let count = self.get(uid);
        self.by_uid.insert(uid, count + 1)?;
        Ok(())
    }

    /// Lowers the number of an app by one. Takes no memory.
    pub fn lower(&mut self, uid: u32)
        requires { 0 < count_of self.old uid }
        ensures { (other : ℕ) → count_of self.new other + one_for uid other ≡ count_of self.old other }
    {
        let count = self.get(uid);
        if count <= 1 {
            self.by_uid.remove(&uid);
        } else if let Some(kept) = self.by_uid.get_mut(&uid) {
            *kept = count - 1;
        }
    }

    /// The same numbers.
    pub fn copy(&self) -> Result<Self, AllocError>
        ensures { IfOk result (λ copy. copy ≡ self.now) }
    {
        Ok(Counts {
            by_uid: self.by_uid.clone()?,
        })
    }
}
