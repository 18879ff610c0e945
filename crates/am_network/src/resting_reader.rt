//! The reader of a link in memory that isn't ready now and then.
ghost use Rattle.std.specs.Prelude.{◌≡◌, ◌<◌, ◌≤◌, ◌↔◌, false, Some, IsErr, IsTrue, OnErr, length};

use crate::memory_link::MemoryReader;
use am_outside::{Failed, Source, is_failing};
use am_types::List;

/// A reader of a link in memory, which says of some reads that they would wait, although they don't.
#[derive(Drop)]
pub struct RestingReader {
    /// Where the bytes come from.
    pub reader: MemoryReader,
    /// The numbers of the calls of `is_ready` that say no, counted from 1.
    pub pauses: List<u32>,
    /// How many such calls there were. It stays at the greatest 64-bit number.
    pub asks: u64,
    /// How many of them said no. It stays at the greatest 64-bit number.
    pub waits: u64,
}

impl Source for RestingReader {
    ghost use Rattle.std.specs.Prelude.{◌≡◌, ◌<◌, ◌≤◌, ◌↔◌, false, Some, IsErr, IsTrue, OnErr, length};
    ghost use Rattle.std.specs.Io.{ReadsAtMost};
    ghost use Rattle.std.specs.Io.KnownBytes.{ReadConsumes, WriteAppends};
    ghost use Rattle.am_outside.specs.Counts.{HasRisen};
    ghost use Rattle.am_outside.specs.Memory.{fails, one_more};
    ghost use Rattle.am_network.specs.Resting.{asked};

    ghost given = { λ r. Some r.reader.source.given };

    ghost left = { λ r. Some r.reader.source.left };

    ghost faults = { λ r. r.reader.source.faults };

    ghost mark = { λ r. r.reader.mark };

    ghost waits = { λ r. r.waits };

    fn is_ready(&mut self) -> bool
        ensures exact { self.new ≡ asked self.old result }
        ensures tells { (result ≡ false) ↔ IsTrue (fails self.old.pauses (one_more self.old.asks)) }
        ensures never_falls { self.old.waits ≤ self.new.waits }
        ensures waits { result ≡ false → HasRisen self.old.waits self.new.waits }
    {
        self.asks = self.asks.saturating_add(1);
        if is_failing(&self.pauses, self.asks) {
            self.waits = self.waits.saturating_add(1);
            return false;
        }
        true
    }

    fn read(&mut self, into: &mut [u8]) -> Result<usize, Failed>
        requires { 0 < length into.old }
        ensures within { ReadsAtMost result into.new }
        ensures left { ReadConsumes (Some self.old.reader.source.left) (Some self.new.reader.source.left)
            result into.new }
        ensures given { WriteAppends (Some self.old.reader.source.given) (Some self.new.reader.source.given)
            result into.new }
        ensures never_falls { self.old.reader.source.faults ≤ self.new.reader.source.faults }
        ensures failed { OnErr result (HasRisen self.old.reader.source.faults self.new.reader.source.faults) }
        ensures fails { IsErr result
            ↔ IsTrue (fails self.old.reader.source.failing (one_more self.old.reader.source.reads)) }
        ensures mark { self.new.reader.mark ≡ self.old.reader.mark }
        ensures waits { self.new.waits ≡ self.old.waits }
    {
        self.reader.read(into)
    }
}
