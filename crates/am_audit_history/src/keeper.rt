//! A keeper that keeps nothing and never fails. For a replay it doesn't matter what a history has kept.
ghost use Rattle.std.specs.Prelude.{None};

use am_keeper::{GrantRow, KeepFail, Keeper, LinkRow, PackageRow};

/// A keeper that drops each row. It tells none, and none of its calls fails.
#[derive(Drop)]
pub struct NoKeeper {
    puts: u64,
}

impl NoKeeper {
    /// A keeper that wasn't asked yet.
    pub fn new() -> Self {
        NoKeeper { puts: 0 }
    }
}

impl Keeper for NoKeeper {
    ghost rows = { λ _. None };

    ghost place = { λ _. None };

    ghost is_honest = { λ _. ⊥ };

    ghost stays_honest = { λ _. ⊥ };

    ghost faults = { λ _. 0 };

    ghost puts = { λ k. k.puts };

    ghost honest_by_nature = { λ k h. h };

    fn put_package(&mut self, _row: &PackageRow) -> Result<(), KeepFail> {
        self.puts = self.puts.saturating_add(1);
        Ok(())
    }

    fn put_grant(&mut self, _row: &GrantRow) -> Result<(), KeepFail> {
        self.puts = self.puts.saturating_add(1);
        Ok(())
    }

    fn put_link(&mut self, _row: &LinkRow) -> Result<(), KeepFail> {
        self.puts = self.puts.saturating_add(1);
        Ok(())
    }
}
