//! Finds packages and their components.
ghost use Rattle.std.specs.Prelude.{◌≡◌, option_copied};
ghost use Rattle.std.specs.Option.{option_map};
ghost use Rattle.std.specs.List.Sorted.{IsStrictlyIncreasing};
ghost use Rattle.am_model.specs.Boards.{caller_of, package_at, package_named, uid_named};
ghost use Rattle.am_model.specs.Receivers.{decl_in, declared};
ghost use Rattle.am_model.specs.Sound.{uids_of};

use am_types::{Component, Decl, Kind, List, Package, SYSTEM, Text};

/// The name of the system's package.
const SYSTEM_NAME: &str = "android";

/// The package of the uid, if there is one, by halving: packages are in the order of their uids.
/// Takes no memory.
pub fn package_at(packages: &List<Package>, uid: u32) -> Option<&Package>
    requires { IsStrictlyIncreasing (uids_of packages.now) }
    ensures { option_copied result ≡ package_at packages.now uid }
{
    let packages = packages.as_slice();
    match packages.binary_search_by_key(&uid, |package| package.uid) {
        Ok(at) => Some(&packages[at]),
        Err(_) => None,
    }
}

/// The package with this name, if there is one. Takes no memory.
pub(crate) fn package_named<'a>(packages: &'a List<Package>, name: &Text) -> Option<&'a Package>
    ensures { option_copied result ≡ package_named packages.now name.now }
{
    for package in packages.as_slice() {
        if package.name == *name {
            return Some(package);
        }
    }
    None
}

/// The uid of the caller with this name, if there is one: a package, or `android`, which is the system.
/// Takes no memory.
pub fn caller_named(packages: &List<Package>, name: &Text) -> Option<u32>
    ensures { result ≡ caller_of packages.now name.now }
{
    if name.as_str() == SYSTEM_NAME {
        return Some(SYSTEM);
    }
    uid_named(packages, name)
}

/// The uid of the package with this name, if there is one. Takes no memory.
pub fn uid_named(packages: &List<Package>, name: &Text) -> Option<u32>
    ensures { result ≡ uid_named packages.now name.now }
{
    for package in packages.as_slice() {
        if package.name == *name {
            return Some(package.uid);
        }
    }
    None
}

/// The enabled component of a kind that a package declares under a class, if there is one. Takes no
/// memory.
pub fn decl_in<'a>(kind: Kind, class: &Text, decls: &'a List<Decl>) -> Option<&'a Decl>
    ensures { option_copied result ≡ decl_in kind class.now decls.now }
{
    for decl in decls.as_slice() {
        if decl.enabled && decl.kind == kind && decl.class == *class {
            return Some(decl);
        }
    }
    None
}

/// An enabled component of a kind, in the package of a uid, if there is one. Takes no memory.
pub fn declared<'a>(
    packages: &'a List<Package>,
    kind: Kind,
    component: &Component,
) -> Option<(u32, &'a Decl)>
    ensures { option_map (λ found. (found.0, found.1.now)) result ≡ declared packages.now kind component.now }
{
    for package in packages.as_slice() {
        if package.name == component.package {
            return match decl_in(kind, &component.class, &package.decls) {
                None => None,
                Some(decl) => Some((package.uid, decl)),
            };
        }
    }
    None
}
