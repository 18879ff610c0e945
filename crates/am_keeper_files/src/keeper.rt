//! The keeper that the store hands out.
ghost use Rattle.std.specs.Prelude.{◌≡◌};

use am_keeper::{GrantRow, KeepFail, Keeper, LinkRow, PackageRow};
use am_keeper_sql::SqlKeeper;
use am_types::drop_parts;

/// A keeper over a database in a file, or in memory if it has no place. It is the keeper inside, as a type without
/// parameters, and may go to another thread.
pub struct FileKeeper {
    pub(crate) keeper: SqlKeeper,
}

impl Drop for FileKeeper {
    fn drop(self) {
        drop_parts!(self, FileKeeper: keeper);
    }
}

impl FileKeeper {
    /// The keeper inside.
    pub(crate) fn inside(self) -> SqlKeeper
        ensures { result ≡ self.keeper }
    {
        let FileKeeper { keeper } = self;
        keeper
    }
}

impl Keeper for FileKeeper {
    ghost use Rattle.std.specs.Prelude.{Some};
    ghost use Rattle.sqlite.specs.Files.{over_files};
    ghost use Rattle.am_keeper_sql.specs.Honest.{IsHonest, IsHonestForGood, state_of, told_by};

    ghost rows = { λ k. Some (told_by (state_of over_files k.keeper.database)) };

    ghost place = { λ k. k.keeper.place };

    ghost is_honest = { λ k. IsHonest (state_of over_files k.keeper.database) };

    ghost stays_honest = { λ k. IsHonestForGood over_files k.keeper.database };

    ghost faults = { λ k. k.keeper.faults };

    ghost puts = { λ k. k.keeper.puts };

    ghost honest_by_nature = { λ k h. h.honest };

    fn put_package(&mut self, row: &PackageRow) -> Result<(), KeepFail> {
        self.keeper.put_package(row)
    }

    fn put_grant(&mut self, row: &GrantRow) -> Result<(), KeepFail> {
        self.keeper.put_grant(row)
    }

    fn put_link(&mut self, row: &LinkRow) -> Result<(), KeepFail> {
        self.keeper.put_link(row)
    }
}
