//! Merges grants and links with their rows, which are in the same order.
ghost use Rattle.std.specs.Prelude.{◌≡◌, IfOk, IsTrue, OnOk, ◌++◌, map};
ghost use Rattle.std.specs.List.{fold};
ghost use Rattle.std.specs.List.Sorted.{IsStrictlySortedBy};
ghost use Rattle.am_keeper.specs.Rows.{rises};
ghost use Rattle.am_model.specs.Sound.{right_cmp};
ghost use Rattle.am_opening.specs.Merging.{after_right, is_live, merge_if};

use crate::rights::merge_one;
use crate::rows::{RightRow, is_live};
use am_installed::Right;
use am_types::{Grant, Link, List, NoMemory, Package, RightKind, Text};
use std::alloc::{AllocError, Global};
use std::collections::VecDeque;

/// A right that comes apart into its uid and its text.
pub(crate) trait IntoParts: Right {
    ghost use Rattle.std.specs.Prelude.{◌≡◌};

    fn into_parts(self) -> (u32, Text)
        ensures { result ≡ Self.right_of self };
}

impl IntoParts for Grant {
    fn into_parts(self) -> (u32, Text) {
        (self.uid, self.permission)
    }
}

impl IntoParts for Link {
    fn into_parts(self) -> (u32, Text) {
        (self.uid, self.host)
    }
}

/// Merges one more row of a right of this kind, if it counts.
fn merge_row<T: RightRow>(
    kind: RightKind,
    packages: &[Package],
    done: &mut Vec<(u32, Text)>,
    left: &mut VecDeque<(u32, Text)>,
    row: &T,
) -> Result<(), NoMemory>
    ensures { OnOk result ((done.new.items, left.new.items) ≡ merge_if (is_live kind packages.now (T.right row.now))
        (T.right row.now) (T.is_held row.now) (done.old.items, left.old.items)) }
{
    if is_live(kind, packages, row.uid(), row.text()) {
        merge_one(done, left, row.uid(), row.text(), row.held())?;
    }
    Ok(())
}

/// The rights that are done, then those that are left.
fn joined(done: Vec<(u32, Text)>, left: VecDeque<(u32, Text)>) -> Result<Vec<(u32, Text)>, NoMemory>
    ensures { IfOk result (λ all. all.items ≡ done.items ++ left.items) }
{
    let mut all = done;
    let mut rest = left.into_vec();
    all.append(&mut rest)?;
    Ok(all)
}

/// The rights of one kind after rows.
fn merged<T: RightRow>(
    alloc: Global,
    kind: RightKind,
    packages: &[Package],
    rights: Vec<(u32, Text)>,
    rows: &[T],
) -> Result<Vec<(u32, Text)>, NoMemory>
    requires sorted { IsStrictlySortedBy right_cmp rights.items }
    requires order { IsTrue (rises (λ row other. right_cmp (T.right row) (T.right other)) rows.now) }
    ensures { IfOk result (λ after. after.items ≡ fold (after_right T.right T.is_held
        (λ row. is_live kind packages.now (T.right row))) rights.items rows.now) }
{
    let mut done = Vec::new(alloc);
    let mut left = VecDeque::from_vec(rights);
    for row in rows {
        merge_row(kind, packages, &mut done, &mut left, row)?;
    }
    joined(done, left)
}

/// The uid and the text of each right.
fn in_parts<K: IntoParts>(alloc: Global, rights: Vec<K>) -> Result<Vec<(u32, Text)>, AllocError>
    ensures { IfOk result (λ parts. parts.items ≡ map K.right_of rights.items) }
{
    rights
        .into_iter()
        .map(|right| right.into_parts())
        .collect(alloc)
}

/// The rights with these uids and texts.
fn of_parts<K: Right>(alloc: Global, parts: Vec<(u32, Text)>) -> Result<Vec<K>, AllocError>
    ensures { IfOk result (λ rights. rights.items ≡ map (λ part. K.made part.0 part.1) parts.items) }
{
    parts
        .into_iter()
        .map(|(uid, text)| K::new(uid, text))
        .collect(alloc)
}

/// The rights of one kind after rows, both in order.
pub(crate) fn after_rows<K: IntoParts, T: RightRow>(
    alloc: Global,
    kind: RightKind,
    packages: &[Package],
    rights: Vec<K>,
    rows: &List<T>,
) -> Result<Vec<K>, NoMemory>
    requires sorted { IsStrictlySortedBy right_cmp (map K.right_of rights.items) }
    requires order { IsTrue (rises (λ row other. right_cmp (T.right row) (T.right other)) rows.now) }
    ensures { IfOk result (λ after. after.items ≡ map (λ right. K.made right.0 right.1)
        (fold (after_right T.right T.is_held (λ row. is_live kind packages.now (T.right row)))
        (map K.right_of rights.items) rows.now)) }
{
    let parts = in_parts(alloc, rights)?;
    let after = merged(alloc, kind, packages, parts, rows.as_slice())?;
    Ok(of_parts(alloc, after)?)
}
