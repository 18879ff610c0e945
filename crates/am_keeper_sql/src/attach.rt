//! How a keeper comes to its database.
ghost use Rattle.std.specs.Prelude.{◌≡◌, ◌≢◌, Some, None, IfOk, IfErr, IfSome};
ghost use Rattle.std.specs.Option.{option_copied};
ghost use Rattle.sqlite_wal.specs.Files.{image_at};
ghost use Rattle.sqlite.specs.Files.{over_files, IsCleanLeft};
ghost use Rattle.am_keeper.specs.declared.rows.Rows.{Rows as Told};
ghost use Rattle.am_keeper.specs.Rows.{IsInOrder, no_rows};
ghost use Rattle.am_keeper_sql.specs.Told.{told_in};
ghost use Rattle.am_keeper_sql.specs.Fresh.{IsFresh};
ghost use Rattle.am_keeper_sql.specs.Image.{HoldsRows, FindsRows, IsRefused};
ghost use Rattle.am_keeper_sql.specs.Honest.{IsHonest, IsInMemory, IsHonestForGood, state_of};

use crate::database::Database;
use crate::{SqlKeeper, connection};
use am_keeper::{Attached, KeepFail};
use am_types::Text;
use sqlite::{Connection, FileFrom, FileStore, Leftover, Start, Unknown};
use std::alloc::Global;

/// Attaches to no rows, in memory.
fn in_memory<S: Start>(
    alloc: Global,
) -> Result<Attached<SqlKeeper<FileStore<FileFrom<S>>>>, KeepFail>
    ensures rows { IfOk result (λ attached. attached.rows ≡ no_rows) }
    ensures told { IfOk result (λ attached.
        told_in (state_of over_files attached.keeper.database).now.trees ≡ Some attached.rows) }
    ensures honest { IfOk result (λ attached. IsHonestForGood over_files attached.keeper.database) }
    ensures in_order { IfOk result (λ attached. IsInOrder attached.rows) }
    ensures fresh { IfOk result (λ attached. IsFresh None attached.keeper) }
    ensures memory { IfErr result (λ fail. fail ≡ KeepFail.NoMemory) }
{
    let conn = Connection::open_in_memory(alloc)?;
    let (conn, rows) = match connection::begin(alloc, conn) {
        Ok(begun) => begun,
        Err((fail, _store)) => return Err(fail),
    };
    let keeper = SqlKeeper {
        database: Database::Memory(conn),
        place: None,
        faults: 0,
        puts: 0,
        alloc,
    };
    Ok(Attached { keeper, rows })
}

/// Attaches to the rows in a file.
fn in_file<S: Start>(
    rt: &HostRuntime,
    alloc: Global,
    path: &Text,
    start: S,
) -> Result<Attached<SqlKeeper<FileStore<FileFrom<S>>>>, (KeepFail, Option<Leftover<FileFrom<S>>>)>
    ensures told { IfOk result (λ attached. IsHonest (state_of over_files attached.keeper.database)
        → told_in (state_of over_files attached.keeper.database).now.trees ≡ Some attached.rows) }
    ensures found { IfOk result (λ attached. IsHonest (state_of over_files attached.keeper.database)
        → FindsRows (image_at S.Start) attached.rows) }
    ensures stored { IfOk result (λ attached. ¬ IsInMemory attached.keeper.database) }
    ensures in_order { IfOk result (λ attached. IsInOrder attached.rows) }
    ensures fresh { IfOk result (λ attached. IsFresh (Some path.now) attached.keeper) }
    ensures refused { IfErr result (λ refused. refused.0 ≡ KeepFail.Failed
        → IfSome refused.1 (λ left. IsCleanLeft left → IsRefused (image_at S.Start) left)) }
{
    let Ok(place) = path.clone() else {
        return Err((KeepFail::NoMemory, None));
    };
    let conn = match Connection::open_from(rt, path.as_str(), false, start) {
        Ok(conn) => conn,
        Err((error, left)) => return Err((connection::fail(error), left)),
    };
    let (conn, rows) = match connection::begin(alloc, conn) {
        Ok(begun) => begun,
        Err((fail, store)) => return Err((fail, Some(Leftover::Store(store)))),
    };
    let keeper = SqlKeeper {
        database: Database::File(conn),
        place: Some(place),
        faults: 0,
        puts: 0,
        alloc,
    };
    Ok(Attached { keeper, rows })
}

/// Attaches to the rows in the file at the path, or to no rows in memory if there is no path.
/// `start` represents what the file and its log hold: the rows are those of its table. A new file
/// gets the table. If this fails once the system has opened the files, it also returns what is left
/// of them: their disk had a fault, a limit was met, or they hold something other than the one table
/// and its rows. The file is kept in WAL mode, and one process has it at a time. A journal that
/// another program left is a fault until that program has recovered the file.
pub fn attach_from<S: Start>(
    rt: &HostRuntime,
    alloc: Global,
    path: Option<&Text>,
    start: S,
) -> Result<Attached<SqlKeeper<FileStore<FileFrom<S>>>>, (KeepFail, Option<Leftover<FileFrom<S>>>)>
    ensures told { IfOk result (λ attached. IsHonest (state_of over_files attached.keeper.database)
        → told_in (state_of over_files attached.keeper.database).now.trees ≡ Some attached.rows) }
    ensures found { option_copied path.entry ≢ None
        → IfOk result (λ attached. IsHonest (state_of over_files attached.keeper.database)
        → FindsRows (image_at S.Start) attached.rows) }
    ensures held { option_copied path.entry ≢ None
        → IfOk result (λ attached. IsHonest (state_of over_files attached.keeper.database)
        → (rows : Told) → HoldsRows (image_at S.Start) rows → attached.rows ≡ rows) }
    ensures stored { option_copied path.entry ≢ None → IfOk result (λ attached. ¬ IsInMemory attached.keeper.database) }
    ensures pathless { option_copied path.entry ≡ None
        → IfOk result (λ attached. (attached.rows ≡ no_rows) × IsHonestForGood over_files attached.keeper.database) }
    ensures in_order { IfOk result (λ attached. IsInOrder attached.rows) }
    ensures fresh { IfOk result (λ attached. IsFresh (option_copied path.entry) attached.keeper) }
    ensures memory { option_copied path.entry ≡ None → IfErr result (λ refused. refused.0 ≡ KeepFail.NoMemory) }
    ensures refused { IfErr result (λ refused. refused.0 ≡ KeepFail.Failed
        → IfSome refused.1 (λ left. IsCleanLeft left → IsRefused (image_at S.Start) left)) }
{
    match path {
        Some(path) => in_file(rt, alloc, path, start),
        None => match in_memory(alloc) {
            Ok(attached) => Ok(attached),
            Err(fail) => Err((fail, None)),
        },
    }
}

/// The same with a start about which nothing is known: its clauses about the file's rows apply to a file that was new
/// or empty.
pub fn attach_sql(
    rt: &HostRuntime,
    alloc: Global,
    path: Option<&Text>,
) -> Result<Attached<SqlKeeper>, KeepFail>
    ensures told { IfOk result (λ attached. IsHonest (state_of over_files attached.keeper.database)
        → told_in (state_of over_files attached.keeper.database).now.trees ≡ Some attached.rows) }
    ensures found { option_copied path.entry ≢ None
        → IfOk result (λ attached. IsHonest (state_of over_files attached.keeper.database)
        → FindsRows (image_at ⟦<Unknown as Start>⟧) attached.rows) }
    ensures held { option_copied path.entry ≢ None
        → IfOk result (λ attached. IsHonest (state_of over_files attached.keeper.database)
        → (rows : Told) → HoldsRows (image_at ⟦<Unknown as Start>⟧) rows → attached.rows ≡ rows) }
    ensures stored { option_copied path.entry ≢ None → IfOk result (λ attached. ¬ IsInMemory attached.keeper.database) }
    ensures pathless { option_copied path.entry ≡ None
        → IfOk result (λ attached. (attached.rows ≡ no_rows) × IsHonestForGood over_files attached.keeper.database) }
    ensures in_order { IfOk result (λ attached. IsInOrder attached.rows) }
    ensures place { IfOk result (λ attached. attached.keeper.place ≡ option_copied path.entry) }
    ensures no_faults { IfOk result (λ attached. attached.keeper.faults ≡ 0) }
    ensures memory { option_copied path.entry ≡ None → IfErr result (λ fail. fail ≡ KeepFail.NoMemory) }
{
    match attach_from(rt, alloc, path, Unknown) {
        Ok(attached) => Ok(attached),
        Err((fail, _left)) => Err(fail),
    }
}
