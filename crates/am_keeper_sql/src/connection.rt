//! What a keeper does with a connection, over any store.
ghost use Rattle.std.specs.Prelude.{◌≡◌, ◌≢◌, ◌⊎◌, [], Some, Err, IsTrue, IfOk, IfErr, OnOk};
ghost use Rattle.sqlite_disk.specs.Disk.{MoreFaults};
ghost use Rattle.sqlite_trees.specs.View.{IsClean};
ghost use Rattle.sqlite.specs.Held.{state};
ghost use Rattle.sqlite.specs.State.{HasCleanDisk};
ghost use Rattle.am_keeper.specs.declared.rows.Rows.{Rows as Told};
ghost use Rattle.am_keeper.specs.Rows.{IsInOrder};
ghost use Rattle.am_keeper_sql.specs.Table.{no_schema, kept_schema};
ghost use Rattle.am_keeper_sql.specs.Honest.{IsHonest, IsSettled, HoldsTable, HasRisingRows, Keeps, PutsInto, FailsUnseen};
ghost use Rattle.am_keeper_sql.specs.Faults.{told_as};
ghost use Rattle.am_keeper_sql.specs.Told.{told_in};
ghost use Rattle.am_keeper_sql.specs.Image.{HasRows};
ghost use Rattle.am_keeper_sql.specs.Failing.{Lasts, IsReady, Begins, FailsToBegin, FailsToPutOnly};

use crate::{cells, shape, table};
use am_keeper::{KeepFail, Row, Rows};
use am_rows::row_cells;
use sqlite::{Alter, Connection, Error, ErrorCode};
use std::alloc::Global;

/// `NoMemory` if the error is out of memory, else `Failed`.
pub(crate) fn fail(error: Error) -> KeepFail
    ensures told { result ≡ told_as error }
    ensures failed { result ≡ KeepFail.Failed → error ≢ Error.SqliteFailure ErrorCode.OutOfMemory }
{
    match error {
        Error::SqliteFailure(ErrorCode::OutOfMemory) => KeepFail::NoMemory,
        _ => KeepFail::Failed,
    }
}

/// Makes the table if nothing is there yet. Anything other than the one table is a fault.
pub(crate) fn prepare<S: Alter>(conn: &mut Connection<S>) -> Result<(), KeepFail>
    ensures honest { IsHonest (state S.Store conn.new) → IsHonest (state S.Store conn.old) }
    ensures ready { IsHonest (state S.Store conn.new) → IsSettled (state S.Store conn.old)
        → ((state S.Store conn.old).now.schema ≡ kept_schema → HasRisingRows (state S.Store conn.old).now.trees)
        → OnOk result (IsSettled (state S.Store conn.new) × HoldsTable (state S.Store conn.new).now) }
    ensures begins { IsHonest (state S.Store conn.new) → IsSettled (state S.Store conn.old)
        → OnOk result (Begins (state S.Store conn.old) (state S.Store conn.new)) }
    ensures lasts { Lasts (state S.Store conn.old) (state S.Store conn.new) }
    ensures failed { HasCleanDisk (state S.Store conn.new) → IsTrue (state S.Store conn.old).is_open
        → result ≡ Err KeepFail.Failed → FailsToBegin (state S.Store conn.old) (state S.Store conn.new) }
{
    if shape::is_blank(conn.schema()) {
        return match table::create(conn) {
            Ok(_) => Ok(()),
            Err(error) => Err(fail(error)),
        };
    }
    if shape::is_kept(conn.schema()) {
        Ok(())
    } else {
        Err(KeepFail::Failed)
    }
}

/// Makes the table if nothing is there yet, and reads its rows. If that fails, returns the store:
/// it had a fault, or its database doesn't hold a keeper's rows, or memory ran out.
pub(crate) fn begin<S: Alter + Drop>(
    alloc: Global,
    mut conn: Connection<S>,
) -> Result<(Connection<S>, Rows), (KeepFail, S)>
    requires { HasCleanDisk (state S.Store conn) → IsReady (state S.Store conn) }
    ensures clean { IfOk result (λ begun. HasCleanDisk (state S.Store begun.0) → HasCleanDisk (state S.Store conn)) }
    ensures keeps { IfOk result (λ begun. IsHonest (state S.Store begun.0) → Keeps (state S.Store begun.0)) }
    ensures told { IfOk result (λ begun. IsHonest (state S.Store begun.0)
        → told_in (state S.Store begun.0).now.trees ≡ Some begun.1) }
    ensures has { IfOk result (λ begun. IsHonest (state S.Store begun.0) → HasRows (state S.Store conn).now begun.1) }
    ensures in_order { IfOk result (λ begun. IsInOrder begun.1) }
    ensures refused { IfErr result (λ refused. refused.0 ≡ KeepFail.Failed → IsClean (S.Store.view refused.1)
        → HasCleanDisk (state S.Store conn)
        × (MoreFaults (S.Store.faults conn.store) (S.Store.faults refused.1)
        ⊎ ((rows : Told) → ¬ HasRows (state S.Store conn).now rows))) }
{
    if let Err(fail) = prepare(&mut conn) {
        return Err((fail, conn.into_store()));
    }
    match table::select(alloc, &mut conn) {
        Ok(rows) => Ok((conn, rows)),
        Err(fail) => Err((fail, conn.into_store())),
    }
}

/// Puts a row. A failure leaves the rows as they were, and comes only if the database didn't execute the statement.
pub(crate) fn put<S: Alter>(
    alloc: Global,
    conn: &mut Connection<S>,
    row: &Row,
) -> Result<(), KeepFail>
    ensures honest { IsHonest (state S.Store conn.new) → IsHonest (state S.Store conn.old) }
    ensures put { PutsInto (state S.Store conn.old) (state S.Store conn.new) row.now result }
    ensures failed { FailsUnseen (state S.Store conn.old) (state S.Store conn.new) result }
    ensures lasts { Lasts (state S.Store conn.old) (state S.Store conn.new) }
    ensures cause { FailsToPutOnly (state S.Store conn.old) (state S.Store conn.new) row.now result }
{
    let Ok(cells) = row_cells(alloc, row) else {
        return Err(KeepFail::NoMemory);
    };
    let Ok(values) = cells::values_of(alloc, cells.as_slice()) else {
        return Err(KeepFail::NoMemory);
    };
    match table::upsert(conn, values.as_slice()) {
        Ok(_) => Ok(()),
        Err(error) => Err(fail(error)),
    }
}
