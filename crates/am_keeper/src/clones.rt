//! The clones of rows: each is equal to the row or rows that it is a clone of.
ghost use Rattle.std.specs.Prelude.{◌≡◌};

use crate::{GrantRow, LinkRow, PackageRow, Row, Rows};
use am_types::{copy_parts, copy_variants};
use std::alloc::AllocError;

impl Clone for PackageRow {
    ghost is_clone = { λ x y. y ≡ x };

    fn clone(&self) -> Result<PackageRow, AllocError> {
        copy_parts!(self, PackageRow: value(name key text); uid gone)
    }
}

impl Clone for GrantRow {
    ghost is_clone = { λ x y. y ≡ x };

    fn clone(&self) -> Result<GrantRow, AllocError> {
        copy_parts!(self, GrantRow: value(permission); uid held)
    }
}

impl Clone for LinkRow {
    ghost is_clone = { λ x y. y ≡ x };

    fn clone(&self) -> Result<LinkRow, AllocError> {
        copy_parts!(self, LinkRow: value(host); uid approved)
    }
}

impl Clone for Row {
    ghost is_clone = { λ x y. y ≡ x };

    fn clone(&self) -> Result<Row, AllocError> {
        copy_variants!(self, Row: value(Package Grant Link))
    }
}

impl Clone for Rows {
    ghost is_clone = { λ x y. y ≡ x };

    fn clone(&self) -> Result<Rows, AllocError> {
        copy_parts!(self, Rows: list(packages grants links))
    }
}
