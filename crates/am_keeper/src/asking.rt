//! A keeper that is asked to put a row of any kind.
ghost use Rattle.am_keeper.specs.Asking.{seen};
ghost use Rattle.am_keeper.specs.Keeping.{IsAsked};

use crate::{KeepFail, Keeper, Row};

/// Asks the keeper once to put the row.
pub fn put_row<K: Keeper>(keeper: &mut K, row: &Row) -> Result<(), KeepFail>
    ensures asked { IsAsked row.now (seen K.Keeper keeper.old) (seen K.Keeper keeper.new) result }
{
    match row {
        Row::Package(row) => keeper.put_package(row),
        Row::Grant(row) => keeper.put_grant(row),
        Row::Link(row) => keeper.put_link(row),
    }
}
