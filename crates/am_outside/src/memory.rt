//! The outside in memory: a source, a sink and files whose content and failures are given.
ghost use Rattle.std.specs.Prelude.{◌≡◌, ℕ, ◌+◌, ◌-◌, ◌<◌, ◌≤◌, ◌↔◌, Some, None, IsErr, IsTrue, IfOk, OnErr, [], ◌++◌, length, take, drop, min, vec_len, vec_capacity};
ghost use Rattle.std.specs.Io.{ReadsAtMost, WritesAtMost};
ghost use Rattle.std.specs.Io.KnownBytes.{ReadConsumes, WriteAppends};
ghost use Rattle.am_outside.specs.Counts.{HasRisen};
ghost use Rattle.am_outside.specs.Memory.{fails, one_more};

use crate::{Failed, Sink, Source};
use am_types::{List, NoMemory};
use std::alloc::Global;
use std::marker::Model;

/// Whether the call of that number is one of those that fail. Takes no memory.
pub fn is_failing(failing: &List<u32>, call: u64) -> bool
    ensures { result ≡ fails failing.now call }
{
    failing
        .as_slice()
        .iter()
        .any(|number| u64::from(*number) == call)
}

// The bytes from a place on.
fn rest_from(bytes: &[u8], at: usize) -> &[u8]
    requires { at ≤ length bytes.now }
    ensures { result.now ≡ drop at bytes.now }
{
    &bytes[at..]
}

// Copies what fits of the front, `most` bytes at most, and answers how many.
fn copy_front(from: &[u8], most: usize, into: &mut [u8]) -> usize
    ensures count { result ≡ min (min most (length from.now)) (length into.old) }
    ensures copied { take result into.new ≡ take result from.now }
    ensures length { length into.new ≡ length into.old }
{
    let count = most.min(from.len()).min(into.len());
    into[..count].copy_from_slice(&from[..count]);
    count
}

/// A source of bytes in memory.
#[derive(Drop)]
pub struct MemorySource {
    bytes: List<u8>,
    at: usize,
    most: usize,
    failing: List<u32>,
    reads: u64,
    faults: u64,
}

impl Model for MemorySource {
    ghost use Rattle.std.specs.Prelude.{◌<◌, ◌≤◌, length, take, drop};
    ghost use Rattle.am_outside.specs.Memory.{Reading};

    ghost Value = { Reading };

    ghost view = { λ s. record { given = take s.at s.bytes; left = drop s.at s.bytes; most = s.most; failing = s.failing; reads = s.reads; faults = s.faults } };

    ghost invariant = { λ s. (s.at ≤ length s.bytes) × (0 < s.most) };
}

impl MemorySource {
    /// A source of these bytes, of which one read gives `most` at most, which is at least 1. The
    /// reads with these numbers, counted from 1, fail, and no other. Its mark is 0. Takes no memory.
    pub fn new(bytes: List<u8>, most: usize, failing: List<u32>) -> MemorySource
        requires { 0 < most }
        ensures { result ≡ record { given = []; left = bytes; most = most; failing = failing; reads = 0; faults = 0 } }
    {
        MemorySource {
            bytes,
            at: 0,
            most,
            failing,
            reads: 0,
            faults: 0,
        }
    }
}

impl Source for MemorySource {
    ghost use Rattle.std.specs.Prelude.{◌≡◌, ℕ, ◌<◌, ◌≤◌, ◌↔◌, Some, IsErr, IsTrue, OnErr, length};
    ghost use Rattle.std.specs.Io.{ReadsAtMost};
    ghost use Rattle.std.specs.Io.KnownBytes.{ReadConsumes, WriteAppends};
    ghost use Rattle.am_outside.specs.Counts.{HasRisen};
    ghost use Rattle.am_outside.specs.Memory.{fails, one_more};

    ghost given = { λ s. Some s.given };

    ghost left = { λ s. Some s.left };

    ghost faults = { λ s. s.faults };

    ghost mark = { λ s. 0 };

    fn read(&mut self, into: &mut [u8]) -> Result<usize, Failed>
        requires { 0 < length into.old }
        ensures within { ReadsAtMost result into.new }
        ensures left { ReadConsumes (Some self.old.left) (Some self.new.left) result into.new }
        ensures given { WriteAppends (Some self.old.given) (Some self.new.given) result into.new }
        ensures never_falls { self.old.faults ≤ self.new.faults }
        ensures failed { OnErr result (HasRisen self.old.faults self.new.faults) }
        ensures fails { IsErr result ↔ IsTrue (fails self.old.failing (one_more self.old.reads)) }
    {
        self.reads = self.reads.saturating_add(1);
        if is_failing(&self.failing, self.reads) {
            self.faults = self.faults.saturating_add(1);
            return Err(Failed);
        }
        let count = copy_front(rest_from(self.bytes.as_slice(), self.at), self.most, into);
        self.at += count;
        Ok(count)
    }
}

/// A sink of bytes in memory.
#[derive(Drop)]
pub struct MemorySink {
    taken: Vec<u8>,
    room: usize,
    most: usize,
    failing: List<u32>,
    writes: u64,
    faults: u64,
}

impl Model for MemorySink {
    ghost use Rattle.std.specs.Prelude.{◌<◌, ◌≤◌, ◌+◌, vec_len, vec_capacity};
    ghost use Rattle.am_outside.specs.Memory.{Writing};

    ghost Value = { Writing };

    ghost view = { λ s. record { taken = s.taken.items; room = s.room; most = s.most; failing = s.failing; writes = s.writes; faults = s.faults } };

    ghost invariant = { λ s. (vec_len s.taken + s.room ≤ vec_capacity s.taken) × (0 < s.most) };
}

impl MemorySink {
    /// A sink with room for that many bytes, taken here. One write takes `most` bytes at most, which
    /// is at least 1, and what is left of the room. The writes with these numbers, counted from 1,
    /// fail, and those of a nonempty piece that find no room. Its mark is 0.
    pub fn new(
        alloc: Global,
        room: usize,
        most: usize,
        failing: List<u32>,
    ) -> Result<MemorySink, NoMemory>
        requires { 0 < most }
        ensures { IfOk result (λ sink. sink ≡ record {
          taken = [];
          room = room;
          most = most;
          failing = failing;
          writes = 0;
          faults = 0;
        }) }
    {
        Ok(MemorySink {
            taken: Vec::with_capacity(alloc, room)?,
            room,
            most,
            failing,
            writes: 0,
            faults: 0,
        })
    }

    /// The bytes taken so far. Takes no memory.
    pub fn taken(&self) -> &[u8]
        ensures { result.now ≡ self.now.taken }
    {
        self.taken.as_slice()
    }
}

// Adds the bytes to a vector that has room for them.
fn put_reserved(taken: &mut Vec<u8>, bytes: &[u8])
    requires { vec_len taken.old + length bytes.now ≤ vec_capacity taken.old }
    ensures items { taken.new.items ≡ taken.old.items ++ bytes.now }
    ensures capacity { vec_capacity taken.new ≡ vec_capacity taken.old }
{
    for byte in bytes {
        taken.push_reserved(*byte);
    }
}

impl Sink for MemorySink {
    ghost use Rattle.std.specs.Prelude.{◌≡◌, ℕ, ◌<◌, ◌≤◌, ◌↔◌, ◌⊎◌, Some, IsErr, IsTrue, IfOk, OnErr, length};
    ghost use Rattle.std.specs.Io.{WritesAtMost};
    ghost use Rattle.std.specs.Io.KnownBytes.{WriteAppends};
    ghost use Rattle.am_outside.specs.Counts.{HasRisen};
    ghost use Rattle.am_outside.specs.Memory.{fails, one_more};

    ghost taken = { λ s. Some s.taken };

    ghost faults = { λ s. s.faults };

    ghost mark = { λ s. 0 };

    fn write(&mut self, from: &[u8]) -> Result<usize, Failed>
        ensures within { WritesAtMost result from.now }
        ensures some { IfOk result (λ n. 0 < length from.now → 0 < n) }
        ensures taken { WriteAppends (Some self.old.taken) (Some self.new.taken) result from.now }
        ensures never_falls { self.old.faults ≤ self.new.faults }
        ensures failed { OnErr result (HasRisen self.old.faults self.new.faults) }
        ensures fails { IsErr result
            ↔ (IsTrue (fails self.old.failing (one_more self.old.writes))
            ⊎ ((self.old.room ≡ 0) × (0 < length from.now))) }
    {
        self.writes = self.writes.saturating_add(1);
        if is_failing(&self.failing, self.writes) || (self.room == 0 && !from.is_empty()) {
            self.faults = self.faults.saturating_add(1);
            return Err(Failed);
        }
        let count = from.len().min(self.most).min(self.room);
        put_reserved(&mut self.taken, &from[..count]);
        self.room -= count;
        Ok(count)
    }
}
