//! A keeper in memory that can be told which of its calls fail.
ghost use Rattle.std.specs.Prelude.{◌≡◌, ◌≢◌, ◌↔◌, ◌≤◌, [], None, Err, IsTrue, IfOk};
ghost use Rattle.am_keeper.specs.declared.rows.Row.TheVariants.{Package, Grant, Link};
ghost use Rattle.am_keeper.specs.Rows.{IsInOrder};
ghost use Rattle.am_keeper.specs.Memory.{IsPut, fails_at, one_more, fresh_keeper, after_put};

use crate::logged::Logged;
use crate::{GrantRow, KeepFail, Keeper, LinkRow, PackageRow, Row, Rows};
use am_outside::Calls;
use am_types::{List, NoMemory, Text};
use std::alloc::Global;
use std::marker::Model;

/// A keeper in memory. The calls whose numbers it was given fail, and no others.
#[derive(Drop)]
pub struct MemoryKeeper {
    rows: Logged,
    place: Option<Text>,
    calls: Calls,
}

impl Model for MemoryKeeper {
    ghost use Rattle.am_keeper.specs.Memory.{InMemory};

    ghost Value = { InMemory };

    ghost view = { λ k. record { told = k.rows; place = k.place; failing = k.calls.failing; calls = k.calls.made; faults = k.calls.faults } };
}

impl MemoryKeeper {
    /// A keeper of these rows without a place. Its calls with the numbers in `failing`, counted
    /// from 1, fail. Takes no memory.
    pub fn new(alloc: Global, rows: Rows, failing: List<u32>) -> Self
        requires { IsInOrder rows }
        ensures { result ≡ fresh_keeper rows None failing }
    {
        MemoryKeeper {
            rows: Logged::new(alloc, rows),
            place: None,
            calls: Calls::new(failing),
        }
    }

    /// A keeper of these rows at a place. None of its calls fail.
    pub(crate) fn at(alloc: Global, rows: Rows, place: Option<Text>) -> Self
        requires { IsInOrder rows }
        ensures { result ≡ fresh_keeper rows place [] }
    {
        MemoryKeeper {
            rows: Logged::new(alloc, rows),
            place,
            calls: Calls::new(List::new(Vec::new(alloc))),
        }
    }

    /// The rows now.
    pub fn rows(&self) -> Result<Rows, NoMemory>
        ensures rows { IfOk result (λ rows. rows ≡ self.now.told) }
        ensures in_order { IfOk result IsInOrder }
    {
        Ok(self.rows.rows()?)
    }

    /// Its rows, its place and its count of faults.
    pub(crate) fn into_parts(self) -> (Logged, Option<Text>, u64)
        ensures { result ≡ (self.told, self.place, self.faults) }
    {
        let MemoryKeeper { rows, place, calls } = self;
        (rows, place, calls.faults)
    }

    /// Counts a call, and tells whether it is to fail.
    fn count_call(&mut self) -> Result<(), KeepFail>
        ensures exact { self.new ≡ after_put self.old self.old.told result }
        ensures fails { (result ≡ Err KeepFail.Failed) ↔ IsTrue (fails_at self.old.failing (one_more self.old.calls)) }
        ensures never_falls { self.old.faults ≤ self.new.faults }
        ensures only_failed { result ≢ Err KeepFail.Failed → self.new.faults ≡ self.old.faults }
    {
        if self.calls.next_fails() {
            return Err(KeepFail::Failed);
        }
        Ok(())
    }
}

impl Keeper for MemoryKeeper {
    ghost use Rattle.std.specs.Prelude.{Some};

    ghost rows = { λ k. Some k.told };

    ghost place = { λ k. k.place };

    ghost is_honest = { λ _. Unit {0} };

    ghost stays_honest = { λ _. Unit {0} };

    ghost faults = { λ k. k.faults };

    ghost puts = { λ k. k.calls };

    ghost honest_by_nature = { λ k h. h };

    fn put_package(&mut self, row: &PackageRow) -> Result<(), KeepFail>
        ensures exact { IsPut (Package row.now) self.old self.new result }
    {
        self.count_call()?;
        self.rows.put(Row::Package(row.clone()?))?;
        Ok(())
    }

    fn put_grant(&mut self, row: &GrantRow) -> Result<(), KeepFail>
        ensures exact { IsPut (Grant row.now) self.old self.new result }
    {
        self.count_call()?;
        self.rows.put(Row::Grant(row.clone()?))?;
        Ok(())
    }

    fn put_link(&mut self, row: &LinkRow) -> Result<(), KeepFail>
        ensures exact { IsPut (Link row.now) self.old self.new result }
    {
        self.count_call()?;
        self.rows.put(Row::Link(row.clone()?))?;
        Ok(())
    }
}
