//! Packages that rows add or remove.
ghost use Rattle.std.specs.Prelude.{◌≡◌, ◌<◌, IfOk, OnOk, All, Ok, Err};
ghost use Rattle.std.specs.List.{list_any};
ghost use Rattle.am_types.specs.declared.device.Package.{Package};
ghost use Rattle.am_keeper.specs.declared.rows.PackageRow.{PackageRow};
ghost use Rattle.am_model.specs.Boards.{grants_without, is_package_uid, links_without, without_package};
ghost use Rattle.am_model.specs.Lists.{place_of};
ghost use Rattle.am_model.specs.Texts.{is_same};
ghost use Rattle.am_manifest.specs.Manifests.{manifest_of};
ghost use Rattle.am_history.specs.Opening.{after_row, after_rows, before_package, is_row_good, kept_package, place_package, with_read};
ghost use Rattle.am_history.specs.Packages.{is_key_used, is_name_used, is_root_key, no_uid};
ghost use Rattle.am_opening.specs.Openings.{Opens, Refuses, state_of};

use crate::opened::{BeginFault, Opened};
use crate::rights::drop_rights;
use am_installed::take;
use am_keeper::PackageRow;
use am_manifest::read_package;
use am_types::{List, Manifest, NoMemory, Package, Text, Unmade};
use am_uri::Form;
use std::alloc::{AllocError, Global};

/// The greatest uid, which is never given.
pub(crate) const NO_UID: u32 = 4_294_967_295;

/// How many packages come before the first one with a greater uid.
fn place_of(packages: &[Package], package: &Package) -> usize
    ensures { result ≡ place_of before_package «package».now packages.now }
{
    for (place, other) in packages.iter().enumerate() {
        if package.uid < other.uid {
            return place;
        }
    }
    packages.len()
}

/// Puts a package in its place by uid.
fn put_package(packages: &mut Vec<Package>, package: Package) -> Result<(), NoMemory>
    ensures { OnOk result (packages.new.items ≡ place_package «package» packages.old.items) }
{
    let place = place_of(packages, &package);
    packages.insert(place, package)?;
    Ok(())
}

/// Removes the package with the uid.
fn drop_package(alloc: Global, packages: &mut List<Package>, uid: u32)
    ensures { packages.new ≡ without_package packages.old uid }
{
    let mut items = take(packages, alloc);
    am_installed::drop_package(&mut items, uid);
    *packages = List::new(items);
}

/// Removes the package with the uid, its grants and its links.
fn removed(alloc: Global, opened: Opened, uid: u32) -> Opened
    ensures { result ≡ record opened {
      device = record (opened.device) {
        packages = without_package opened.device.packages uid;
        grants = grants_without opened.device.grants uid;
        links = links_without opened.device.links uid;
      };
    } }
{
    let mut opened = opened;
    drop_package(alloc, &mut opened.device.packages, uid);
    drop_rights(alloc, &mut opened.device.grants, uid);
    drop_rights(alloc, &mut opened.device.links, uid);
    opened
}

/// Some package has the uid.
pub(crate) fn is_package_uid(packages: &[Package], uid: u32) -> bool
    ensures { result ≡ is_package_uid packages.now uid }
{
    packages.iter().any(|package| package.uid == uid)
}

/// Some package has the name.
fn is_name_used(packages: &[Package], name: &Text) -> bool
    ensures { result ≡ is_name_used packages.now name.now }
{
    packages.iter().any(|package| package.name == *name)
}

/// The root has the key.
fn is_root_key(root_key: &Option<Text>, key: &Text) -> bool
    ensures { result ≡ is_root_key root_key.now key.now }
{
    match root_key {
        None => false,
        Some(root_key) => *root_key == *key,
    }
}

/// Some package has the key.
fn is_package_key(packages: &[Package], key: &Text) -> bool
    ensures { result ≡ list_any (λ (p : Package). is_same p.key key.now) packages.now }
{
    packages.iter().any(|package| package.key == *key)
}

/// A caller has the key.
fn is_key_used(opened: &Opened, key: &Text) -> bool
    ensures { result ≡ is_key_used (state_of opened.now) key.now }
{
    let device = &opened.device;
    device.system_key == *key
        || is_root_key(&device.root_key, key)
        || is_package_key(device.packages.as_slice(), key)
}

/// The row's uid, name and key are free and of the right form, and there is room for its package.
fn is_row_good(opened: &Opened, row: &PackageRow, manifest: &Manifest) -> bool
    ensures { result ≡ is_row_good (state_of opened.now) row.now manifest.now }
{
    let packages = opened.device.packages.as_slice();
    manifest.package == row.name
        && row.uid >= 10_000
        && !is_package_uid(packages, row.uid)
        && Form::AccessKey.fits(row.key.as_str())
        && !is_name_used(packages, &row.name)
        && !is_key_used(opened, &row.key)
        && packages.len() < 256
}

/// The fault that names a row, unless memory runs out.
pub(crate) fn refused(name: &Text) -> BeginFault
    ensures { Refuses result (Err name.now) }
{
    match name.clone() {
        Ok(name) => BeginFault::Rows(name),
        Err(_) => BeginFault::NoMemory,
    }
}

/// A package as it is kept: it is stopped.
fn kept_package(row: &PackageRow, manifest: Manifest) -> Result<Package, AllocError>
    ensures { IfOk result (λ kept. kept ≡ kept_package row.now manifest) }
{
    let name = row.name.clone()?;
    let key = row.key.clone()?;
    let Manifest { package, decls } = manifest;
    drop(package);
    Ok(Package {
        uid: row.uid,
        name,
        key,
        stopped: true,
        decls,
    })
}

/// Adds a package in its place.
fn with_package(alloc: Global, opened: Opened, package: Package) -> Result<Opened, NoMemory>
    ensures { IfOk result (λ more. more ≡ record opened {
      device = record (opened.device) {
        packages = place_package «package» opened.device.packages;
      };
    }) }
{
    let mut opened = opened;
    let mut packages = take(&mut opened.device.packages, alloc);
    put_package(&mut packages, package)?;
    opened.device.packages = List::new(packages);
    Ok(opened)
}

/// Adds the package of a row with its manifest, if the row is good.
fn with_manifest(
    alloc: Global,
    opened: Opened,
    row: &PackageRow,
    manifest: Manifest,
) -> Result<Opened, BeginFault>
    ensures { Opens result (with_read (state_of opened) row.now (Ok manifest)) }
{
    if !is_row_good(&opened, row, &manifest) {
        return Err(refused(&row.name));
    }
    let package = kept_package(row, manifest)?;
    Ok(with_package(alloc, opened, package)?)
}

/// Reads the manifest of a row and adds the package, if the row is good.
fn with_text(alloc: Global, opened: Opened, row: &PackageRow) -> Result<Opened, BeginFault>
    ensures { Opens result (with_read (state_of opened) row.now (manifest_of row.now.text)) }
{
    match read_package(alloc, &row.text) {
        Ok(manifest) => with_manifest(alloc, opened, row, manifest),
        Err(Unmade::Fault(fault)) => {
            drop(fault);
            Err(refused(&row.name))
        }
        Err(Unmade::NoMemory) => Err(BeginFault::NoMemory),
    }
}

/// What is opened after a package row.
fn after_row(alloc: Global, opened: Opened, row: &PackageRow) -> Result<Opened, BeginFault>
    ensures opens { Opens result (after_row (state_of opened) row.now) }
    ensures given { IfOk result (λ _. row.now.uid < no_uid) }
{
    if row.uid == NO_UID {
        return Err(refused(&row.name));
    }
    if row.gone {
        return Ok(removed(alloc, opened, row.uid));
    }
    with_text(alloc, opened, row)
}

/// What is opened after the package rows, one after the other.
pub(crate) fn after_rows(
    alloc: Global,
    opened: Opened,
    rows: &[PackageRow],
) -> Result<Opened, BeginFault>
    ensures opens { Opens result (after_rows (state_of opened) rows.now) }
    ensures given { IfOk result (λ _. All (λ (row : PackageRow). row.uid < no_uid) rows.now) }
{
    let mut opened = opened;
    for row in rows {
        match after_row(alloc, opened, row) {
            Ok(more) => opened = more,
            Err(fault) => return Err(fault),
        }
    }
    Ok(opened)
}
