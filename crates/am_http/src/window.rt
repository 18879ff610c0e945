//! The bytes of a connection that were read and aren't used yet.
ghost use Rattle.std.specs.Prelude.{◌≡◌, ℕ, ◌+◌, ◌-◌, ◌<◌, ◌≤◌, [], IfOk, OnErr, length, take, drop};
ghost use Rattle.std.specs.Io.{ReadsAtMost};
ghost use Rattle.std.specs.Io.KnownBytes.{ReadConsumes};
ghost use Rattle.am_outside.specs.Counts.{HasRisen};
ghost use Rattle.am_http.specs.Sessions.{most_held};
ghost use Rattle.am_http.specs.Windows.{Fills};

use am_frames::frame::MAX_FRAME;
use am_outside::{Failed, Source};
use am_types::NoMemory;
use std::alloc::Global;
use std::marker::Model;

/// The bytes that were read and aren't used yet. Contracts see them as a list.
#[derive(Drop)]
pub struct Window {
    bytes: Vec<u8>,
    start: usize,
    end: usize,
}

impl Model for Window {
    ghost use Rattle.std.specs.Prelude.{◌≡◌, ℕ, ◌≤◌, List as Items, take, drop, vec_len};
    ghost use Rattle.am_http.specs.Sessions.{most_held};

    ghost Value = { Items ℕ };

    ghost view = { λ w. drop w.start (take w.end w.bytes.items) };

    ghost invariant = { λ w. (w.start ≤ w.end) × (w.end ≤ most_held) × (vec_len w.bytes ≡ most_held) };
}

impl Window {
    /// A window without bytes. It takes its memory here, once.
    pub fn new(alloc: Global) -> Result<Window, NoMemory>
        ensures { IfOk result (λ window. window ≡ []) }
    {
        Ok(Window {
            bytes: vec![in alloc; 0; MAX_FRAME]?,
            start: 0,
            end: 0,
        })
    }

    /// Forgets all bytes.
    pub fn clear(&mut self)
        ensures { self.new ≡ [] }
    {
        self.start = 0;
        self.end = 0;
    }

    /// Lends the bytes.
    pub fn bytes(&self) -> &[u8]
        ensures bytes { result.now ≡ self.now }
        ensures fits { length result.now ≤ most_held }
    {
        &self.bytes[self.start..self.end]
    }

    /// Drops the first bytes, which were used.
    pub fn consume(&mut self, count: usize)
        requires { count ≤ length self.old }
        ensures { self.new ≡ drop count self.old }
    {
        self.start += count;
    }

    /// Reads once into the room after the bytes.
    pub fn fill<S: Source>(&mut self, source: &mut S) -> Result<usize, Failed>
        requires { length self.old < most_held }
        ensures fills { Fills self.old self.new (S.left source.old) (S.left source.new) result }
        ensures fits { length self.new ≤ most_held }
        ensures never_falls { S.faults source.old ≤ S.faults source.new }
        ensures failed { OnErr result (HasRisen (S.faults source.old) (S.faults source.new)) }
        ensures mark { S.mark source.new ≡ S.mark source.old }
        ensures waits { S.waits source.new ≡ S.waits source.old }
    {
        to_front(self.bytes.as_mut_slice(), self.start, self.end);
        self.end -= self.start;
        self.start = 0;
        let count = read_behind(source, self.bytes.as_mut_slice(), self.end)?;
        self.end += count;
        Ok(count)
    }
}

// Moves the bytes between two places to the front.
fn to_front(bytes: &mut [u8], start: usize, end: usize)
    requires order { start ≤ end }
    requires fits { end ≤ length bytes.old }
    ensures moved { take (end - start) bytes.new ≡ drop start (take end bytes.old) }
    ensures length { length bytes.new ≡ length bytes.old }
{
    if start > 0 {
        bytes.copy_within(start..end, 0);
    }
}

// Reads once into the room after a place.
fn read_behind<S: Source>(source: &mut S, bytes: &mut [u8], end: usize) -> Result<usize, Failed>
    requires { end < length bytes.old }
    ensures front { take end bytes.new ≡ take end bytes.old }
    ensures length { length bytes.new ≡ length bytes.old }
    ensures within { IfOk result (λ count. end + count ≤ length bytes.new) }
    ensures left { ReadConsumes (S.left source.old) (S.left source.new) result (drop end bytes.new) }
    ensures never_falls { S.faults source.old ≤ S.faults source.new }
    ensures failed { OnErr result (HasRisen (S.faults source.old) (S.faults source.new)) }
    ensures mark { S.mark source.new ≡ S.mark source.old }
    ensures waits { S.waits source.new ≡ S.waits source.old }
{
    source.read(&mut bytes[end..])
}
