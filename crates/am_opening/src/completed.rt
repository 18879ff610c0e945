//! The rights that were kept, and the next uid.
ghost use Rattle.std.specs.Prelude.{◌≡◌, ◌+◌, ◌<◌, ◌==◌, All, IfOk, count_by, option_copied};
ghost use Rattle.std.specs.List.{find};
ghost use Rattle.am_keeper.specs.declared.rows.PackageRow.{PackageRow};
ghost use Rattle.am_keeper.specs.Rows.{IsInOrder};
ghost use Rattle.am_model.specs.Boards.{board_of};
ghost use Rattle.am_installed.specs.Installed.{AreGrantsInOrder, AreLinksInOrder};
ghost use Rattle.am_history.specs.Opening.{has_too_many, unless_too_many};
ghost use Rattle.am_history.specs.Packages.{no_uid};
ghost use Rattle.am_opening.specs.Openings.{Opens, completed_from, grants_after, links_after, opened_from, state_of};

use crate::merging::after_rows;
use crate::opened::{BeginFault, Opened};
use crate::packages::refused;
use crate::uids;
use am_installed::{Right, take};
use am_keeper::Rows;
use am_types::{Device, Grant, Link, List, NoMemory, Package, RightKind};
use std::alloc::Global;

/// The grants and the links after the rows that were kept.
fn rights_after(
    alloc: Global,
    packages: &[Package],
    grants: Vec<Grant>,
    links: Vec<Link>,
    rows: &Rows,
) -> Result<(Vec<Grant>, Vec<Link>), NoMemory>
    requires grants { AreGrantsInOrder grants.items }
    requires links { AreLinksInOrder links.items }
    requires order { IsInOrder rows.now }
    ensures grants { IfOk result (λ after. after.0.items ≡ grants_after packages.now grants.items rows.now.grants) }
    ensures links { IfOk result (λ after. after.1.items ≡ links_after packages.now links.items rows.now.links) }
{
    let grants = after_rows(alloc, RightKind::Permission, packages, grants, &rows.grants)?;
    let links = after_rows(alloc, RightKind::Host, packages, links, &rows.links)?;
    Ok((grants, links))
}

/// What is opened, with the rights that were kept.
fn with_rights(alloc: Global, opened: Opened, rows: &Rows) -> Result<Opened, NoMemory>
    requires grants { AreGrantsInOrder opened.device.grants }
    requires links { AreLinksInOrder opened.device.links }
    requires order { IsInOrder rows.now }
    ensures { IfOk result (λ more. more ≡ record opened {
      device = record (opened.device) {
        grants = grants_after opened.device.packages opened.device.grants rows.now.grants;
        links = links_after opened.device.packages opened.device.links rows.now.links;
      };
    }) }
{
    let mut opened = opened;
    let grants = take(&mut opened.device.grants, alloc);
    let links = take(&mut opened.device.links, alloc);
    let packages = opened.device.packages.as_slice();
    match rights_after(alloc, packages, grants, links, rows) {
        Ok((grants, links)) => {
            opened.device.grants = List::new(grants);
            opened.device.links = List::new(links);
            Ok(opened)
        }
        Err(error) => {
            drop(opened);
            Err(error)
        }
    }
}

/// What is opened, with the rights that were kept and the next uid. `greatest` is the greatest uid
/// of the device's packages.
fn completed(alloc: Global, opened: Opened, greatest: u32, rows: &Rows) -> Result<Opened, NoMemory>
    requires greatest { greatest < no_uid }
    requires grants { AreGrantsInOrder opened.device.grants }
    requires links { AreLinksInOrder opened.device.links }
    requires order { IsInOrder rows.now }
    requires given { All (λ (row : PackageRow). row.uid < no_uid) rows.now.packages }
    ensures { IfOk result (λ more. state_of more ≡ completed_from greatest rows.now (state_of opened)) }
{
    let mut opened = with_rights(alloc, opened, rows)?;
    opened.next_uid = uids::of_rows(greatest, rows) + 1;
    Ok(opened)
}

/// How many rights the uid has.
fn count_rights<T: Right>(rights: &[T], uid: u32) -> usize
    ensures { result ≡ count_by (λ right. (T.right_of right).0 == uid) rights.now }
{
    let mut count = 0;
    for right in rights {
        if right.uid() == uid {
            count += 1;
        }
    }
    count
}

/// Whether the package has more than 256 grants, or more than 256 links.
fn has_too_many(device: &Device, package: &Package) -> bool
    ensures { result ≡ has_too_many (board_of device.now) «package».now }
{
    let uid = package.uid;
    count_rights(device.grants.as_slice(), uid) > 256
        || count_rights(device.links.as_slice(), uid) > 256
}

/// The first package that has too many grants or links.
fn first_over(device: &Device) -> Option<&Package>
    ensures { option_copied result ≡ find (has_too_many (board_of device.now)) device.now.packages }
{
    for package in device.packages.as_slice() {
        if has_too_many(device, package) {
            return Some(package);
        }
    }
    None
}

/// What is opened, unless some package has too many grants or links.
fn unless_too_many(opened: Opened) -> Result<Opened, BeginFault>
    ensures { Opens result (unless_too_many (state_of opened)
        (find (has_too_many (board_of opened.device)) opened.device.packages)) }
{
    match first_over(&opened.device) {
        None => Ok(opened),
        Some(package) => {
            let fault = refused(&package.name);
            drop(opened);
            Err(fault)
        }
    }
}

/// What is opened, complete, unless some package has too many grants or links. `greatest` is the
/// greatest uid of the device's packages.
pub(crate) fn opened_from(
    alloc: Global,
    opened: Opened,
    greatest: u32,
    rows: &Rows,
) -> Result<Opened, BeginFault>
    requires greatest { greatest < no_uid }
    requires grants { AreGrantsInOrder opened.device.grants }
    requires links { AreLinksInOrder opened.device.links }
    requires order { IsInOrder rows.now }
    requires given { All (λ (row : PackageRow). row.uid < no_uid) rows.now.packages }
    ensures { Opens result (opened_from greatest rows.now (state_of opened)) }
{
    let opened = completed(alloc, opened, greatest, rows)?;
    unless_too_many(opened)
}
