//! The order of the rows of a kind, and where a row goes among the others.
ghost use Rattle.std.specs.Prelude.{◌≡◌, ◌≤◌, ◌<◌, length, IsTrue, IfOk, IfErr, OnOk, OnErr};
ghost use Rattle.am_keeper.specs.Rows.{rises, put_in};
ghost use Rattle.am_keeper.specs.Places.{IsPlaceOf, IsGapFor};

use crate::{GrantRow, LinkRow, PackageRow};
use std::alloc::AllocError;
use std::cmp::Ordering;

/// Rows of one kind, which have an order.
pub(crate) trait Ranked: Drop {
    ghost use Rattle.std.specs.Prelude.{◌≡◌};
    ghost use Rattle.am_keeper.specs.Ranking.{Ranking};

    ghost ranking: { Ranking Self };

    /// How this row compares with another one.
    fn rank(&self, other: &Self) -> Ordering
        ensures { result ≡ ranking.order self.now other.now };
}

impl Ranked for PackageRow {
    ghost use Rattle.am_keeper.specs.Ranking.{packages};

    ghost ranking = { packages };

    fn rank(&self, other: &Self) -> Ordering {
        self.uid.cmp(&other.uid)
    }
}

impl Ranked for GrantRow {
    ghost use Rattle.am_keeper.specs.Ranking.{grants};

    ghost ranking = { grants };

    fn rank(&self, other: &Self) -> Ordering {
        (self.uid, &self.permission).cmp(&(other.uid, &other.permission))
    }
}

impl Ranked for LinkRow {
    ghost use Rattle.am_keeper.specs.Ranking.{links};

    ghost ranking = { links };

    fn rank(&self, other: &Self) -> Ordering {
        (self.uid, &self.host).cmp(&(other.uid, &other.host))
    }
}

/// The place of the row that ties with this one, or the place where this one would go.
fn place_of<T: Ranked>(rows: &[T], row: &T) -> Result<usize, usize>
    requires { IsTrue (rises T.ranking.order rows.now) }
    ensures found { IfOk result (IsPlaceOf T.ranking.order row.now rows.now) }
    ensures absent { IfErr result (IsGapFor T.ranking.order row.now rows.now) }
{
    rows.binary_search_by(|kept| kept.rank(row))
}

/// Replaces the row that ties with this one, or adds this one. If memory runs out, nothing changes.
pub(crate) fn put_in<T: Ranked>(rows: &mut Vec<T>, row: T) -> Result<(), AllocError>
    requires { IsTrue (rises T.ranking.order rows.old.items) }
    ensures ok { OnOk result (rows.new.items ≡ put_in T.ranking.order row rows.old.items) }
    ensures err { OnErr result (rows.new.items ≡ rows.old.items) }
    ensures rises { IsTrue (rises T.ranking.order rows.new.items) }
{
    match place_of(rows, &row) {
        Ok(at) => {
            rows[at] = row;
            Ok(())
        }
        Err(at) => Ok(rows.insert(at, row)?),
    }
}
