//! The keeper's puts.
ghost use Rattle.am_keeper.specs.declared.rows.Row.TheVariants.{Package, Grant, Link};
ghost use Rattle.am_keeper.specs.Keeping.{IsAsked};
ghost use Rattle.am_keeper_sql.specs.Failing.{Lasts, FailsToPutOnly};
ghost use Rattle.am_keeper_sql.specs.Fresh.{seen_of};
ghost use Rattle.am_keeper_sql.specs.Honest.{IsHonest, IsHonestForGood, state_of, told_by};
ghost use Rattle.std.specs.Prelude.{Some};

use crate::SqlKeeper;
use crate::keeper::count_put;
use am_keeper::{GrantRow, KeepFail, Keeper, LinkRow, PackageRow, Row};
use sqlite::Alter;

impl<F: Alter + Drop> Keeper for SqlKeeper<F> {
    ghost rows = { λ k. Some (told_by (state_of F.Store k.database)) };

    ghost place = { λ k. k.place };

    ghost is_honest = { λ k. IsHonest (state_of F.Store k.database) };

    ghost stays_honest = { λ k. IsHonestForGood F.Store k.database };

    ghost faults = { λ k. k.faults };

    ghost puts = { λ k. k.puts };

    ghost honest_by_nature = { λ k h. h.honest };

    fn put_package(&mut self, row: &PackageRow) -> Result<(), KeepFail>
        ensures asked { IsAsked (Package row.now) (seen_of F.Store self.old) (seen_of F.Store self.new) result }
        ensures lasts { Lasts (state_of F.Store self.old.database) (state_of F.Store self.new.database) }
        ensures cause { FailsToPutOnly (state_of F.Store self.old.database) (state_of F.Store self.new.database) (Package row.now) result }
    {
        count_put(&mut self.puts);
        self.put_row(Row::Package(row.clone()?))
    }

    fn put_grant(&mut self, row: &GrantRow) -> Result<(), KeepFail>
        ensures asked { IsAsked (Grant row.now) (seen_of F.Store self.old) (seen_of F.Store self.new) result }
        ensures lasts { Lasts (state_of F.Store self.old.database) (state_of F.Store self.new.database) }
        ensures cause { FailsToPutOnly (state_of F.Store self.old.database) (state_of F.Store self.new.database) (Grant row.now) result }
    {
        count_put(&mut self.puts);
        self.put_row(Row::Grant(row.clone()?))
    }

    fn put_link(&mut self, row: &LinkRow) -> Result<(), KeepFail>
        ensures asked { IsAsked (Link row.now) (seen_of F.Store self.old) (seen_of F.Store self.new) result }
        ensures lasts { Lasts (state_of F.Store self.old.database) (state_of F.Store self.new.database) }
        ensures cause { FailsToPutOnly (state_of F.Store self.old.database) (state_of F.Store self.new.database) (Link row.now) result }
    {
        count_put(&mut self.puts);
        self.put_row(Row::Link(row.clone()?))
    }
}
