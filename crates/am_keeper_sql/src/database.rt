//! The database of a keeper, in memory or in a file.
ghost use Rattle.std.specs.Prelude.{◌≡◌, ◌↔◌, Some, IfOk};
ghost use Rattle.am_keeper.specs.Rows.{IsInOrder};
ghost use Rattle.am_keeper_sql.specs.Honest.{IsHonest, IsSettled, HoldsTable, PutsInto, FailsUnseen, StaysSeen, IsHonestForGood, state_of};
ghost use Rattle.am_keeper_sql.specs.Failing.{Lasts, FailsToPutOnly};
ghost use Rattle.am_keeper_sql.specs.Told.{told_in};

use crate::{connection, table};
use am_keeper::{KeepFail, Row, Rows};
use sqlite::{Alter, Connection, MemStore};
use std::alloc::Global;

/// The connection to a database in memory, or to one in a file.
#[derive(Drop)]
pub(crate) enum Database<F: Alter> {
    Memory(Connection<MemStore>),
    File(Connection<F>),
}

impl<F: Alter> Database<F> {
    /// Puts a row. A failure leaves the rows as they were, and comes only if the database didn't execute the statement.
    pub fn put(&mut self, alloc: Global, row: &Row) -> Result<(), KeepFail>
        ensures honest { IsHonest (state_of F.Store self.new) → IsHonest (state_of F.Store self.old) }
        ensures put { PutsInto (state_of F.Store self.old) (state_of F.Store self.new) row.now result }
        ensures failed { FailsUnseen (state_of F.Store self.old) (state_of F.Store self.new) result }
        ensures lasts { Lasts (state_of F.Store self.old) (state_of F.Store self.new) }
        ensures cause { FailsToPutOnly (state_of F.Store self.old) (state_of F.Store self.new) row.now result }
        ensures for_good { IsHonestForGood F.Store self.new ↔ IsHonestForGood F.Store self.old }
    {
        match self {
            Database::Memory(conn) => connection::put(alloc, conn, row),
            Database::File(conn) => connection::put(alloc, conn, row),
        }
    }

    /// The rows. The database stays as it was.
    pub fn rows(&mut self, alloc: Global) -> Result<Rows, KeepFail>
        ensures honest { IsHonest (state_of F.Store self.new) → IsHonest (state_of F.Store self.old) }
        ensures told { IsHonest (state_of F.Store self.new) → HoldsTable (state_of F.Store self.old).now
            → IfOk result (λ rows. told_in (state_of F.Store self.old).now.trees ≡ Some rows) }
        ensures seen { IsHonest (state_of F.Store self.new) → IsSettled (state_of F.Store self.old)
            → HoldsTable (state_of F.Store self.old).now
            → StaysSeen (state_of F.Store self.old) (state_of F.Store self.new) }
        ensures for_good { IsHonestForGood F.Store self.new ↔ IsHonestForGood F.Store self.old }
        ensures in_order { IfOk result IsInOrder }
    {
        match self {
            Database::Memory(conn) => table::select(alloc, conn),
            Database::File(conn) => table::select(alloc, conn),
        }
    }
}
