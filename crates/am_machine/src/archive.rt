//! The stored calls of a history.
ghost use Rattle.std.specs.Prelude.{◌≡◌, ◌≤◌, ◌+◌, ◌++◌, ◌∷◌, [], length, take, drop, IfOk, OnOk, IsOk, IsTrue};
ghost use Rattle.am_history.specs.Steps.{is_calm};

use crate::packed::{Packed, pack, unpack};
use am_types::{Entry, List, NoMemory, drop_parts};
use std::alloc::Global;
use std::marker::Model;

/// A stored call whose request is packed. Contracts see it as the entry.
pub(crate) struct Stored {
    desk: u32,
    uid: u32,
    now: u64,
    weight: u32,
    request: Packed,
    kept: bool,
}

impl Model for Stored {
    ghost use Rattle.am_types.specs.declared.history.Entry.{Entry};
    ghost use Rattle.am_machine.specs.Requests.{request_of};

    ghost Value = { Entry };

    ghost view = { λ s. record {
      desk = s.desk;
      uid = s.uid;
      now = s.now;
      weight = s.weight;
      request = request_of s.request;
      kept = s.kept;
    } };
}

impl Drop for Stored {
    fn drop(self) {
        drop_parts!(self, Stored: desk uid now weight request kept);
    }
}

impl Stored {
    /// It is kept, or not. Takes no memory.
    pub(crate) fn set_kept(&mut self, kept: bool)
        ensures { self.new ≡ record (self.old) { kept = kept } }
    {
        self.kept = kept;
    }

    // The entry.
    fn entry(&self, alloc: Global) -> Result<Entry, NoMemory>
        ensures { IfOk result (λ entry. entry ≡ self.entry.now) }
    {
        let request = unpack(alloc, &self.request)?;
        Ok(Entry {
            desk: self.desk,
            uid: self.uid,
            now: self.now,
            weight: self.weight,
            request,
            kept: self.kept,
        })
    }
}

/// Stored calls, each in few bytes beside those of its request. Contracts see the entries, and for how many more
/// there is room at once.
pub(crate) struct Archive {
    alloc: Global,
    entries: Vec<Stored>,
    // Where a request is packed before its bytes are copied.
    buffer: Vec<u8>,
}

impl Model for Archive {
    ghost use Rattle.std.specs.Prelude.{vec_capacity, vec_len, ◌-◌};
    ghost use Rattle.am_machine.specs.Archives.{Archived};

    ghost Value = { Archived };

    ghost view = { λ a. record { entries = a.entries.items; spare = vec_capacity a.entries - vec_len a.entries } };
}

impl Drop for Archive {
    fn drop(self) {
        drop_parts!(self, Archive: alloc entries buffer);
    }
}

impl Archive {
    /// An archive without entries. Takes no memory.
    pub(crate) fn new(alloc: Global) -> Archive
        ensures { result ≡ record { entries = []; spare = 0 } }
    {
        Archive {
            alloc,
            entries: Vec::new(alloc),
            buffer: Vec::new(alloc),
        }
    }

    /// The number of entries. Takes no memory.
    pub(crate) fn len(&self) -> usize
        ensures { result ≡ length self.now.entries }
    {
        self.entries.len()
    }

    /// Makes room for that many more entries at once.
    pub(crate) fn reserve(&mut self, more: usize) -> Result<(), NoMemory>
        ensures entries { self.new.entries ≡ self.old.entries }
        ensures room { OnOk result (more ≤ self.new.spare) }
        ensures grows { self.old.spare ≤ self.new.spare }
        ensures spare { more ≤ self.old.spare → IsOk result }
    {
        self.entries.reserve(more)?;
        Ok(())
    }

    /// The entry in packed form, for which there is room then. If there was room before, a calm request takes no
    /// memory that can be refused.
    pub(crate) fn prepare(&mut self, call: &Entry) -> Result<Stored, NoMemory>
        ensures packed { IfOk result (λ stored. stored ≡ call.entry.now) }
        ensures entries { self.new.entries ≡ self.old.entries }
        ensures room { OnOk result (1 ≤ self.new.spare) }
        ensures grows { self.old.spare ≤ self.new.spare }
        ensures calm { IsTrue (is_calm call.entry.now.request) → 1 ≤ self.old.spare → IsOk result }
    {
        self.reserve(1)?;
        let request = pack(self.alloc, &mut self.buffer, &call.request)?;
        Ok(Stored {
            desk: call.desk,
            uid: call.uid,
            now: call.now,
            weight: call.weight,
            request,
            kept: call.kept,
        })
    }

    /// Adds an entry for which there is room. Takes no memory.
    pub(crate) fn push_reserved(&mut self, stored: Stored)
        requires { 1 ≤ self.old.spare }
        ensures entries { self.new.entries ≡ self.old.entries ++ stored ∷ [] }
        ensures spare { self.new.spare + 1 ≡ self.old.spare }
    {
        self.entries.push_reserved(stored);
    }

    /// At most that many entries, from a number on.
    pub(crate) fn page(&self, from: usize, most: usize) -> Result<List<Entry>, NoMemory>
        ensures { IfOk result (λ entries. entries ≡ take most (drop from self.now.entries)) }
    {
        page_of(self.alloc, &self.entries, from, most)
    }
}

// At most that many of these entries, from a number on.
fn page_of(
    alloc: Global,
    stored: &[Stored],
    from: usize,
    most: usize,
) -> Result<List<Entry>, NoMemory>
    ensures { IfOk result (λ entries. entries ≡ take most (drop from stored.now)) }
{
    if from >= stored.len() {
        return Ok(List::new(Vec::new(alloc)));
    }
    let rest = &stored[from..];
    let end = most.min(rest.len());
    unpacked(alloc, &rest[..end])
}

// These entries.
fn unpacked(alloc: Global, stored: &[Stored]) -> Result<List<Entry>, NoMemory>
    ensures { IfOk result (λ entries. entries ≡ stored.now) }
{
    let mut entries = Vec::new(alloc);
    for one in stored {
        entries.push(one.entry(alloc)?)?;
    }
    Ok(List::new(entries))
}
