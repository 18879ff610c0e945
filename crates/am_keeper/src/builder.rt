//! Rows that are collected one at a time.
ghost use Rattle.std.specs.Prelude.{◌≡◌, IfOk, OnOk, OnErr};
ghost use Rattle.am_keeper.specs.Rows.{IsInOrder, no_rows, with_row};

use crate::rank::put_in;
use crate::{GrantRow, LinkRow, PackageRow, Row, Rows};
use am_types::List;
use std::alloc::{AllocError, Global};
use std::marker::Model;
use std::vec::VecCloneMethods;

/// Rows to which more rows can be put. Contracts see a builder as its rows.
#[derive(Drop)]
pub struct RowsBuilder {
    packages: Vec<PackageRow>,
    grants: Vec<GrantRow>,
    links: Vec<LinkRow>,
}

impl Model for RowsBuilder {
    ghost use Rattle.am_keeper.specs.declared.rows.Rows.{Rows};
    ghost use Rattle.am_keeper.specs.Rows.{IsInOrder};

    ghost Value = { Rows };

    ghost view = { λ b. record { packages = b.packages.items; grants = b.grants.items; links = b.links.items } };

    ghost invariant = { λ b. IsInOrder
        (record { packages = b.packages.items; grants = b.grants.items; links = b.links.items }) };
}

/// A copy of the rows of one kind.
fn copied<T: Clone + Drop>(alloc: Global, rows: &[T]) -> Result<Vec<T>, AllocError>
    requires exact { (x y : T) → T.is_clone x y → y ≡ x }
    ensures { IfOk result (λ copy. copy.items ≡ rows.now) }
{
    let mut copy = Vec::new(alloc);
    VecCloneMethods::extend_from_slice(&mut copy, rows)?;
    Ok(copy)
}

impl RowsBuilder {
    /// A builder without rows. Takes no memory.
    pub fn new(alloc: Global) -> Self
        ensures { result ≡ no_rows }
    {
        RowsBuilder {
            packages: Vec::new(alloc),
            grants: Vec::new(alloc),
            links: Vec::new(alloc),
        }
    }

    /// A builder with a copy of these rows.
    pub fn from_rows(alloc: Global, rows: &Rows) -> Result<Self, AllocError>
        requires { IsInOrder rows.now }
        ensures { IfOk result (λ copy. copy ≡ rows.now) }
    {
        Ok(RowsBuilder {
            packages: copied(alloc, rows.packages.as_slice())?,
            grants: copied(alloc, rows.grants.as_slice())?,
            links: copied(alloc, rows.links.as_slice())?,
        })
    }

    /// Replaces the row with the same key, or adds this one. If memory runs out, nothing changes.
    pub fn put(&mut self, row: Row) -> Result<(), AllocError>
        ensures ok { OnOk result (self.new ≡ with_row self.old row) }
        ensures err { OnErr result (self.new ≡ self.old) }
    {
        match row {
            Row::Package(row) => put_in(&mut self.packages, row),
            Row::Grant(row) => put_in(&mut self.grants, row),
            Row::Link(row) => put_in(&mut self.links, row),
        }
    }

    /// Returns the rows. Takes no memory.
    pub fn finish(self) -> Rows
        ensures rows { result ≡ self }
        ensures in_order { IsInOrder result }
    {
        let RowsBuilder {
            packages,
            grants,
            links,
        } = self;
        Rows {
            packages: List::new(packages),
            grants: List::new(grants),
            links: List::new(links),
        }
    }
}
