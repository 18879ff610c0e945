//! The greatest uid that was ever given.
ghost use Rattle.std.specs.Prelude.{◌≡◌, ◌<◌, ◌∷◌, [], All, map, max};
ghost use Rattle.std.specs.List.{fold};
ghost use Rattle.am_keeper.specs.declared.rows.PackageRow.{PackageRow};
ghost use Rattle.am_model.specs.Sound.{IsSoundPackage};
ghost use Rattle.am_history.specs.Opening.{row_uids};
ghost use Rattle.am_history.specs.Packages.{no_uid};
ghost use Rattle.am_history.specs.State.{uids_of};
ghost use Rattle.am_opening.specs.Openings.{given_uids};

use crate::packages::NO_UID;
use crate::rows::RightRow;
use am_keeper::{PackageRow, Rows};
use am_types::Package;

/// The greatest of 9999 and the uids of packages.
pub(crate) fn greatest_of(packages: &[Package]) -> u32
    requires { All IsSoundPackage packages.now }
    ensures greatest { result ≡ fold max 9999 (uids_of packages.now) }
    ensures below { result < no_uid }
{
    let mut greatest: u32 = 9_999;
    for package in packages {
        greatest = greatest.max(package.uid);
    }
    greatest
}

/// The greatest of a uid and the uids of package rows.
fn of_packages(least: u32, rows: &[PackageRow]) -> u32
    requires least { least < no_uid }
    requires given { All (λ (row : PackageRow). row.uid < no_uid) rows.now }
    ensures greatest { result ≡ fold max least (map (λ (row : PackageRow). row.uid) rows.now) }
    ensures below { result < no_uid }
{
    let mut greatest = least;
    for row in rows {
        greatest = greatest.max(row.uid);
    }
    greatest
}

/// The greater of two uids. The second one is ignored if it is the greatest uid of all.
fn greater(uid: u32, other: u32) -> u32
    requires { uid < no_uid }
    ensures greater { result ≡ fold max uid (given_uids (other ∷ [])) }
    ensures below { result < no_uid }
{
    if other == NO_UID { uid } else { uid.max(other) }
}

/// The greatest of a uid and the uids of rows of rights, among which the greatest uid of all is ignored.
fn of_rights<T: RightRow>(least: u32, rows: &[T]) -> u32
    requires { least < no_uid }
    ensures greatest { result ≡ fold max least (given_uids (map (λ row. (T.right row).0) rows.now)) }
    ensures below { result < no_uid }
{
    let mut greatest = least;
    for row in rows {
        greatest = greater(greatest, row.uid());
    }
    greatest
}

/// The greatest of a uid and the uids of rows.
pub(crate) fn of_rows(least: u32, rows: &Rows) -> u32
    requires least { least < no_uid }
    requires given { All (λ (row : PackageRow). row.uid < no_uid) rows.now.packages }
    ensures greatest { result ≡ fold max least (row_uids rows.now) }
    ensures below { result < no_uid }
{
    let greatest = of_packages(least, rows.packages.as_slice());
    let greatest = of_rights(greatest, rows.grants.as_slice());
    of_rights(greatest, rows.links.as_slice())
}
