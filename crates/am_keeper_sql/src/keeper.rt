//! The keeper.
ghost use Rattle.std.specs.Prelude.{◌≡◌, ◌≢◌, ◌↔◌, ◌≤◌, Some, Err, IsOk, IfOk};
ghost use Rattle.am_keeper.specs.Rows.{IsInOrder, with_row};
ghost use Rattle.am_keeper.specs.Keeping.{Puts, raised_by};
ghost use Rattle.am_keeper_sql.specs.Faults.{faults_after};
ghost use Rattle.am_keeper_sql.specs.Failing.{Lasts, FailsToPutOnly};
ghost use Rattle.am_keeper_sql.specs.Told.{told_in};
ghost use Rattle.am_keeper_sql.specs.Honest.{IsHonest, Keeps, IsInMemory, IsHonestForGood, state_of, told_by};

use crate::connection;
use crate::database::Database;
use am_keeper::{KeepFail, Row, Rows};
use am_types::{Text, drop_parts};
use sqlite::{Alter, File, FileStore};
use sqlite_disk::Disk;
use std::alloc::Global;

/// Counts a fault, if there was one.
fn count_fault<T>(faults: &mut u64, done: &Result<T, KeepFail>)
    ensures counts { faults.new ≡ faults_after faults.old done.now }
    ensures never_falls { faults.old ≤ faults.new }
    ensures only_failed { done.now ≢ Err KeepFail.Failed → faults.new ≡ faults.old }
{
    if let Err(KeepFail::Failed) = done {
        *faults = faults.saturating_add(1);
    }
}

/// Counts a put, whatever its result will be.
pub(crate) fn count_put(puts: &mut u64)
    ensures { puts.new ≡ raised_by 1 puts.old }
{
    *puts = puts.saturating_add(1);
}

/// A keeper over a SQL database, in memory or in a file over a store `F`. Its store is honest as
/// long as the disk returns what was written and no fault has shut the connection; memory is
/// honest for good. Only a fault shuts the connection, and then every further call is a fault. A put
/// fails only if the database didn't execute its statement.
pub struct SqlKeeper<F: Alter = FileStore<File>> {
    pub(crate) database: Database<F>,
    pub(crate) place: Option<Text>,
    pub(crate) faults: u64,
    pub(crate) puts: u64,
    pub(crate) alloc: Global,
    ghost keeps: { ∥ (IsHonest (state_of F.Store database) → Keeps (state_of F.Store database)) ∥₁ },
}

impl<F: Alter + Drop> Drop for SqlKeeper<F> {
    fn drop(self) {
        drop_parts!(self, SqlKeeper: database place faults puts alloc);
    }
}

impl<F: Alter> SqlKeeper<F> {
    /// How many faults there were. The count stops at the greatest 64-bit number. Takes no memory.
    pub fn faults(&self) -> u64
        ensures { result ≡ self.now.faults }
    {
        self.faults
    }

    /// The current rows. Fails if a row of the table isn't a kept row. Only the keeper's count of faults may change.
    pub fn told(&mut self) -> Result<Rows, KeepFail>
        ensures rows { IsHonest (state_of F.Store self.new.database)
            → IfOk result (λ rows. told_in (state_of F.Store self.new.database).now.trees ≡ Some rows) }
        ensures same { IsHonest (state_of F.Store self.new.database)
            → told_by (state_of F.Store self.new.database) ≡ told_by (state_of F.Store self.old.database) }
        ensures honest { IsHonest (state_of F.Store self.new.database) → IsHonest (state_of F.Store self.old.database) }
        ensures for_good { IsHonestForGood F.Store self.new.database ↔ IsHonestForGood F.Store self.old.database }
        ensures in_order { IfOk result IsInOrder }
        ensures place { self.new.place ≡ self.old.place }
        ensures puts { self.new.puts ≡ self.old.puts }
        ensures counts { self.new.faults ≡ faults_after self.old.faults result }
        ensures never_falls { self.old.faults ≤ self.new.faults }
    {
        let told = self.database.rows(self.alloc);
        count_fault(&mut self.faults, &told);
        told
    }

    /// Puts a row.
    pub(crate) fn put_row(&mut self, row: Row) -> Result<(), KeepFail>
        ensures rows { IsHonest (state_of F.Store self.new.database)
            → Puts (λ told. with_row told row) (Some (told_by (state_of F.Store self.old.database)))
            (Some (told_by (state_of F.Store self.new.database))) result }
        ensures honest { IsHonest (state_of F.Store self.new.database) → IsHonest (state_of F.Store self.old.database) }
        ensures for_good { IsHonestForGood F.Store self.new.database ↔ IsHonestForGood F.Store self.old.database }
        ensures place { self.new.place ≡ self.old.place }
        ensures puts { self.new.puts ≡ self.old.puts }
        ensures counts { self.new.faults ≡ faults_after self.old.faults result }
        ensures never_falls { self.old.faults ≤ self.new.faults }
        ensures only_failed { result ≢ Err KeepFail.Failed → self.new.faults ≡ self.old.faults }
        ensures lasts { Lasts (state_of F.Store self.old.database) (state_of F.Store self.new.database) }
        ensures cause { FailsToPutOnly (state_of F.Store self.old.database) (state_of F.Store self.new.database) row result }
    {
        let done = self.database.put(self.alloc, &row);
        drop(row);
        count_fault(&mut self.faults, &done);
        done
    }
}

impl<D: Disk + Drop> SqlKeeper<FileStore<D>> {
    /// Ends the connection, so that only the file itself holds the rows. Does nothing if there is no file.
    pub fn close(self) -> Result<(), KeepFail>
        ensures { IsInMemory self.database → IsOk result }
    {
        let SqlKeeper {
            database,
            place: _,
            faults: _,
            puts: _,
            alloc: _,
        } = self;
        match database {
            Database::Memory(_) => Ok(()),
            Database::File(conn) => conn.close().map_err(connection::fail),
        }
    }
}
