//! The outside: where bytes come from and go to, files and the clock. Each except the clock counts
//! its faults, and answers `Failed` only if this count rose.
ghost use Rattle.std.specs.Prelude.{◌≡◌, ℕ, ◌<◌, ◌≤◌, List as Items, Option, Some, false, length, take, IfOk, OnErr};
ghost use Rattle.std.specs.Io.{ReadsAtMost, WritesAtMost};
ghost use Rattle.std.specs.Io.KnownBytes.{ReadConsumes, WriteAppends};
ghost use Rattle.am_outside.specs.Counts.{HasRisen};

use crate::Failed;

/// Where bytes come from, as a file, a connection or standard input.
pub trait Source {
    /// The bytes given so far, if the source tells them.
    ghost given: { Self → Option (Items ℕ) };

    /// The bytes left, if it tells them.
    ghost left: { Self → Option (Items ℕ) };

    /// How many reads failed. It stays at the greatest 64-bit number.
    ghost faults: { Self → ℕ };

    /// A number that no read changes.
    ghost mark: { Self → ℕ };

    /// How many times it said that a read would wait. It stays at the greatest 64-bit number. A
    /// source that never says so has 0.
    ghost waits: { Self → ℕ } = { λ _. 0 };

    /// Whether a read would answer at once: bytes have come, or the end is reached, or the read
    /// fails. A source that can't tell says yes, as this body does, and then a read may wait. What
    /// is asked stays as it was, except for the count of the answers "no".
    fn is_ready(&mut self) -> bool
        ensures left { left self.new ≡ left self.old }
        ensures given { given self.new ≡ given self.old }
        ensures faults { faults self.new ≡ faults self.old }
        ensures mark { mark self.new ≡ mark self.old }
        ensures never_falls { waits self.old ≤ waits self.new }
        ensures waits { result ≡ false → HasRisen (waits self.old) (waits self.new) }
    {
        true
    }

    /// Reads some bytes into the front of a slice, and answers how many: 0 only at the end.
    fn read(&mut self, into: &mut [u8]) -> Result<usize, Failed>
        requires { 0 < length into.old }
        ensures within { ReadsAtMost result into.new }
        ensures left { ReadConsumes (left self.old) (left self.new) result into.new }
        ensures given { WriteAppends (given self.old) (given self.new) result into.new }
        ensures never_falls { faults self.old ≤ faults self.new }
        ensures failed { OnErr result (HasRisen (faults self.old) (faults self.new)) }
        ensures mark { mark self.new ≡ mark self.old }
        ensures waits { waits self.new ≡ waits self.old };
}

/// Where bytes go.
pub trait Sink {
    /// The bytes taken so far, if the sink tells them.
    ghost taken: { Self → Option (Items ℕ) };

    /// How many writes failed. It stays at the greatest 64-bit number.
    ghost faults: { Self → ℕ };

    /// A number that no write changes.
    ghost mark: { Self → ℕ };

    /// Takes some bytes of the front of a slice, and answers how many: never 0 of a nonempty one.
    fn write(&mut self, from: &[u8]) -> Result<usize, Failed>
        ensures within { WritesAtMost result from.now }
        ensures some { IfOk result (λ n. 0 < length from.now → 0 < n) }
        ensures taken { WriteAppends (taken self.old) (taken self.new) result from.now }
        ensures never_falls { faults self.old ≤ faults self.new }
        ensures failed { OnErr result (HasRisen (faults self.old) (faults self.new)) }
        ensures mark { mark self.new ≡ mark self.old };
}
