//! The links of a gate in memory.
ghost use Rattle.std.specs.Prelude.{◌≡◌, ◌<◌, ◌≤◌, ◌↔◌, Some, IsErr, IsTrue, IfOk, OnErr, length};

use am_outside::{Failed, MemorySink, MemorySource, Sink, Source};

/// A link that is to come: its reader and its writer, which are unused.
#[derive(Drop)]
pub struct LinkPlan {
    /// Where its bytes come from.
    pub reader: MemorySource,
    /// Where its bytes go.
    pub writer: MemorySink,
}

/// The reader of a link in memory: a source with a mark.
#[derive(Drop)]
pub struct MemoryReader {
    /// Where the bytes come from.
    pub source: MemorySource,
    /// The number of the link at its gate, counted from 0.
    pub mark: u64,
}

/// The writer of a link in memory: a sink with a mark.
#[derive(Drop)]
pub struct MemoryWriter {
    /// Where the bytes go.
    pub sink: MemorySink,
    /// The number of the link at its gate, counted from 0.
    pub mark: u64,
}

/// A link that a gate took back.
#[derive(Drop)]
pub struct MemoryLink {
    /// Its reader, as it came back.
    pub reader: MemoryReader,
    /// Its writer, as it came back.
    pub writer: MemoryWriter,
}

impl Source for MemoryReader {
    ghost use Rattle.std.specs.Prelude.{◌≡◌, ◌<◌, ◌≤◌, ◌↔◌, Some, IsErr, IsTrue, OnErr, length};
    ghost use Rattle.std.specs.Io.{ReadsAtMost};
    ghost use Rattle.std.specs.Io.KnownBytes.{ReadConsumes, WriteAppends};
    ghost use Rattle.am_outside.specs.Counts.{HasRisen};
    ghost use Rattle.am_outside.specs.Memory.{fails, one_more};

    ghost given = { λ r. Some r.source.given };

    ghost left = { λ r. Some r.source.left };

    ghost faults = { λ r. r.source.faults };

    ghost mark = { λ r. r.mark };

    fn read(&mut self, into: &mut [u8]) -> Result<usize, Failed>
        requires { 0 < length into.old }
        ensures within { ReadsAtMost result into.new }
        ensures left { ReadConsumes (Some self.old.source.left) (Some self.new.source.left) result into.new }
        ensures given { WriteAppends (Some self.old.source.given) (Some self.new.source.given) result into.new }
        ensures never_falls { self.old.source.faults ≤ self.new.source.faults }
        ensures failed { OnErr result (HasRisen self.old.source.faults self.new.source.faults) }
        ensures fails { IsErr result ↔ IsTrue (fails self.old.source.failing (one_more self.old.source.reads)) }
        ensures mark { self.new.mark ≡ self.old.mark }
    {
        self.source.read(into)
    }
}

impl Sink for MemoryWriter {
    ghost use Rattle.std.specs.Prelude.{◌≡◌, ◌<◌, ◌≤◌, ◌↔◌, ◌⊎◌, Some, IsErr, IsTrue, IfOk, OnErr, length};
    ghost use Rattle.std.specs.Io.{WritesAtMost};
    ghost use Rattle.std.specs.Io.KnownBytes.{WriteAppends};
    ghost use Rattle.am_outside.specs.Counts.{HasRisen};
    ghost use Rattle.am_outside.specs.Memory.{fails, one_more};

    ghost taken = { λ w. Some w.sink.taken };

    ghost faults = { λ w. w.sink.faults };

    ghost mark = { λ w. w.mark };

    fn write(&mut self, from: &[u8]) -> Result<usize, Failed>
        ensures within { WritesAtMost result from.now }
        ensures some { IfOk result (λ n. 0 < length from.now → 0 < n) }
        ensures taken { WriteAppends (Some self.old.sink.taken) (Some self.new.sink.taken) result from.now }
        ensures never_falls { self.old.sink.faults ≤ self.new.sink.faults }
        ensures failed { OnErr result (HasRisen self.old.sink.faults self.new.sink.faults) }
        ensures fails { IsErr result ↔ (IsTrue (fails self.old.sink.failing (one_more self.old.sink.writes))
            ⊎ ((self.old.sink.room ≡ 0) × (0 < length from.now))) }
        ensures mark { self.new.mark ≡ self.old.mark }
    {
        self.sink.write(from)
    }
}
