//! The one table of a store, and its three SQL statements.
ghost use Rattle.std.specs.Prelude.{◌≡◌, [], Some, None, Err, IsTrue, IfOk, IfErr, OnOk, OnErr};
ghost use Rattle.sqlite.specs.Held.{state};
ghost use Rattle.sqlite.specs.State.{HasCleanDisk, Executes};
ghost use Rattle.sqlite.specs.Values.{bound};
ghost use Rattle.am_keeper.specs.declared.rows.Row.{Row as Kept};
ghost use Rattle.am_keeper.specs.Rows.{IsInOrder, with_row};
ghost use Rattle.am_keeper_sql.specs.Table.{no_schema, kept_schema, upsert_text};
ghost use Rattle.am_keeper_sql.specs.Failing.{Lasts, FailsOnly, FailsToTell};
ghost use Rattle.am_keeper_sql.specs.Told.{row_said, told_in};
ghost use Rattle.am_keeper_sql.specs.Honest.{IsHonest, IsSettled, HoldsTable, Keeps, StaysSeen, told_by};

use crate::cells;
use crate::connection::fail;
use am_keeper::{KeepFail, Rows, RowsBuilder};
use sqlite::types::ValueRef;
use sqlite::{Alter, Connection, Error};
use std::alloc::Global;

/// Makes the table.
pub(crate) fn create<S: Alter>(conn: &mut Connection<S>) -> Result<usize, Error>
    ensures honest { IsHonest (state S.Store conn.new) → IsHonest (state S.Store conn.old) }
    ensures made { IsHonest (state S.Store conn.new) → IsSettled (state S.Store conn.old)
        → (state S.Store conn.old).now.schema ≡ no_schema
        → OnOk result (IsSettled (state S.Store conn.new) × HoldsTable (state S.Store conn.new).now
        × ((state S.Store conn.new).now.trees 0 ≡ [])) }
    ensures lasts { Lasts (state S.Store conn.old) (state S.Store conn.new) }
    ensures failed { HasCleanDisk (state S.Store conn.new) → IsTrue (state S.Store conn.old).is_open
        → (state S.Store conn.old).now.schema ≡ no_schema
        → IfErr result (FailsOnly (state S.Store conn.old) (state S.Store conn.new)) }
{
    conn.execute(
        "CREATE TABLE kept (kind INTEGER NOT NULL, uid INTEGER NOT NULL, word TEXT NOT NULL, name TEXT NOT NULL, access TEXT NOT NULL, manifest TEXT NOT NULL, truth INTEGER NOT NULL, PRIMARY KEY (kind, uid, word)) STRICT",
        &[],
    )
}

/// Puts the kept row that the values describe. If this fails, nothing changes.
pub(crate) fn upsert<S: Alter>(
    conn: &mut Connection<S>,
    values: &[ValueRef<'_>],
) -> Result<usize, Error>
    ensures honest { IsHonest (state S.Store conn.new) → IsHonest (state S.Store conn.old) }
    ensures put { IsHonest (state S.Store conn.new) → Keeps (state S.Store conn.old) → (row : Kept)
        → row_said (bound values.now) ≡ Some row
        → OnOk result (Keeps (state S.Store conn.new)
        × (told_by (state S.Store conn.new) ≡ with_row (told_by (state S.Store conn.old)) row)) }
    ensures refused { IsHonest (state S.Store conn.new) → IsSettled (state S.Store conn.old)
        → OnErr result (StaysSeen (state S.Store conn.old) (state S.Store conn.new)) }
    ensures lasts { Lasts (state S.Store conn.old) (state S.Store conn.new) }
    ensures failed { HasCleanDisk (state S.Store conn.new)
        → IfErr result (λ e. Executes upsert_text (bound values.now) (state S.Store conn.old) (state S.Store conn.new) (Err e)) }
{
    conn.execute(
        "INSERT INTO kept (kind, uid, word, name, access, manifest, truth) VALUES (?1, ?2, ?3, ?4, ?5, ?6, ?7) ON CONFLICT (kind, uid, word) DO UPDATE SET name = excluded.name, access = excluded.access, manifest = excluded.manifest, truth = excluded.truth",
        values,
    )
}

/// Selects the kept rows in the order of kind, uid and word. The database stays as it was. This
/// fails if the disk had a fault, or if a row of the table isn't a kept row.
pub(crate) fn select<S: Alter>(alloc: Global, conn: &mut Connection<S>) -> Result<Rows, KeepFail>
    ensures honest { IsHonest (state S.Store conn.new) → IsHonest (state S.Store conn.old) }
    ensures told { IsHonest (state S.Store conn.new) → HoldsTable (state S.Store conn.old).now
        → IfOk result (λ rows. told_in (state S.Store conn.old).now.trees ≡ Some rows) }
    ensures seen { IsHonest (state S.Store conn.new) → IsSettled (state S.Store conn.old)
        → HoldsTable (state S.Store conn.old).now → StaysSeen (state S.Store conn.old) (state S.Store conn.new) }
    ensures in_order { IfOk result IsInOrder }
    ensures lasts { Lasts (state S.Store conn.old) (state S.Store conn.new) }
    ensures failed { HasCleanDisk (state S.Store conn.new) → IsTrue (state S.Store conn.old).is_open
        → (state S.Store conn.old).step_limit ≡ None → HoldsTable (state S.Store conn.old).now
        → result ≡ Err KeepFail.Failed → FailsToTell (state S.Store conn.old) (state S.Store conn.new) }
{
    let mut rows = RowsBuilder::new(alloc);
    let mut found = match conn.query(
        "SELECT kind, uid, word, name, access, manifest, truth FROM kept ORDER BY kind, uid, word",
        &[],
    ) {
        Ok(found) => found,
        Err(error) => return Err(fail(error)),
    };
    'rows: for _ in 0..u64::MAX {
        let more = match cells::put_next(alloc, &mut found, &mut rows) {
            Ok(more) => more,
            Err(fail) => return Err(fail),
        };
        if !more {
            return Ok(rows.finish());
        }
    }
    // No memory holds this many rows.
    Err(KeepFail::NoMemory)
}
