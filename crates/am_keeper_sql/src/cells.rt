//! Turns rows of the database into kept rows, and back.
ghost use Rattle.std.specs.Prelude.{◌≡◌, Some, None, IsSome, Err, IfOk, IfErr, OnOk};
ghost use Rattle.sqlite.specs.Held.{state};
ghost use Rattle.sqlite.specs.State.{HasCleanDisk, IsUnchanged};
ghost use Rattle.sqlite.specs.Values.{bound, bound_value};
ghost use Rattle.sqlite_value.specs.Value.{owned};
ghost use Rattle.am_rows.specs.Cells.{row_in};
ghost use Rattle.am_keeper_sql.specs.Told.{cell_in, cells_in, row_said};
ghost use Rattle.am_keeper_sql.specs.Honest.{IsHonest, IsSettled, StaysSeen};
ghost use Rattle.am_keeper_sql.specs.Reading.{IsRead, Moves};
ghost use Rattle.am_keeper_sql.specs.Failing.{Lasts, FailsToMove};

use crate::connection::fail;
use am_keeper::{KeepFail, Row, RowsBuilder};
use am_rows::{Cell, RowFault, row_of};
use am_types::{List, Text};
use sqlite::Alter;
use sqlite::types::ValueRef;
use std::alloc::{AllocError, Global};

/// A cell as a value of the database.
fn value_of(cell: &Cell) -> ValueRef<'_>
    ensures { cell_in (bound_value (owned result)) ≡ Some cell.now }
{
    match cell {
        Cell::Whole(number) => ValueRef::Int(*number),
        Cell::Words(text) => ValueRef::Text(text.as_str().as_bytes()),
    }
}

/// Cells as values of the database.
pub(crate) fn values_of(alloc: Global, cells: &[Cell]) -> Result<Vec<ValueRef<'_>>, AllocError>
    ensures { IfOk result (λ values. cells_in (bound values.items) ≡ Some cells.now) }
{
    let mut values = Vec::new(alloc);
    for cell in cells {
        values.push(value_of(cell))?;
    }
    Ok(values)
}

/// A value of the database as a cell: a number or a text.
fn cell_of(alloc: Global, value: ValueRef<'_>) -> Result<Cell, KeepFail>
    ensures read { IsRead (cell_in (owned value.entry)) result }
    ensures memory { result ≡ Err KeepFail.NoMemory → IsSome (cell_in (owned value.entry)) }
{
    match value {
        ValueRef::Int(number) => Ok(Cell::Whole(number)),
        ValueRef::Text(bytes) => match std::str::from_utf8(bytes) {
            Ok(text) => Ok(Cell::Words(Text::of(alloc, text)?)),
            Err(_) => Err(KeepFail::Failed),
        },
        _ => Err(KeepFail::Failed),
    }
}

fn cells_of(alloc: Global, row: &sqlite::Row) -> Result<List<Cell>, KeepFail>
    ensures { IsRead (cells_in row.now) result }
{
    let mut cells = Vec::with_capacity(alloc, row.column_count())?;
    for at in 0..row.column_count() {
        let Ok(value) = row.get_ref(at) else {
            return Err(KeepFail::Failed);
        };
        match cell_of(alloc, value) {
            Ok(cell) => cells.push(cell)?,
            Err(fail) => return Err(fail),
        }
    }
    Ok(List::new(cells))
}

/// Reads a kept row from cells. Fails if and only if they describe none, or memory runs out.
fn row_in(cells: &List<Cell>) -> Result<Row, KeepFail>
    ensures read { IsRead (row_in cells.now) result }
    ensures memory { result ≡ Err KeepFail.NoMemory → IsSome (row_in cells.now) }
{
    match row_of(cells) {
        Ok(row) => Ok(row),
        Err(RowFault::Shape) => Err(KeepFail::Failed),
        Err(RowFault::NoMemory) => Err(KeepFail::NoMemory),
    }
}

/// Reads a kept row from a row of the database. Fails if and only if it describes none, or memory runs out.
fn kept_row(alloc: Global, row: &sqlite::Row) -> Result<Row, KeepFail>
    ensures { IsRead (row_said row.now) result }
{
    let cells = match cells_of(alloc, row) {
        Ok(cells) => cells,
        Err(fail) => return Err(fail),
    };
    row_in(&cells)
}

/// Puts the kept row that the next row of the selection describes. Returns false if there is no next row.
pub(crate) fn put_next<S: Alter>(
    alloc: Global,
    found: &mut sqlite::Rows<'_, S>,
    rows: &mut RowsBuilder,
) -> Result<bool, KeepFail>
    ensures same_reference { found.new.conn.ghost_name ≡ found.old.conn.ghost_name }
    ensures honest { IsHonest (state S.Store found.new.conn.now) → IsHonest (state S.Store found.old.conn.now) }
    ensures seen { IsHonest (state S.Store found.new.conn.now) → IsSettled (state S.Store found.old.conn.now)
        → StaysSeen (state S.Store found.old.conn.now) (state S.Store found.new.conn.now) }
    ensures same { IsHonest (state S.Store found.new.conn.now)
        → OnOk result (IsUnchanged (state S.Store found.old.conn.now) (state S.Store found.new.conn.now)) }
    ensures put { IsHonest (state S.Store found.new.conn.now)
        → IfOk result (Moves S.Store found.old.conn.now found.new.conn.now rows.old rows.new) }
    ensures lasts { Lasts (state S.Store found.old.conn.now) (state S.Store found.new.conn.now) }
    ensures failed { HasCleanDisk (state S.Store found.new.conn.now) → result ≡ Err KeepFail.Failed
        → FailsToMove S.Store found.old.conn.now found.new.conn.now }
{
    if let Err(error) = found.advance() {
        return Err(fail(error));
    }
    let Some(row) = found.get() else {
        return Ok(false);
    };
    match kept_row(alloc, row) {
        Ok(row) => rows.put(row)?,
        Err(fail) => return Err(fail),
    }
    Ok(true)
}
