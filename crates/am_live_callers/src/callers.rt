//! Callers, and which one has a key.
ghost use Rattle.std.specs.Prelude.{◌≡◌, ◌≤◌, ◌||◌, Some, if◌then◌else◌};
ghost use Rattle.std.specs.List.{list_any};
ghost use Rattle.std.specs.Option.{option_copied};
ghost use Rattle.am_types.specs.Bounds.{latest_moment};
ghost use Rattle.am_types.specs.declared.device.Package.{Package};
ghost use Rattle.am_model.specs.Texts.{is_same};
ghost use Rattle.am_history.specs.Packages.{is_root_key};
ghost use Rattle.am_history.specs.State.{key_of_package, root_or, system_uid, uid_of_package};

use am_types::{List, Package, ROOT, SYSTEM, Text};

/// Who makes a call, and the moment of the call in milliseconds.
#[derive(Clone, Copy)]
pub struct Caller {
    pub uid: u32,
    pub moment: u64,
    pub ghost early: { moment ≤ latest_moment },
}

/// The uid that has the key, if there is one, given the keys of the system and of the root, and the
/// packages that are installed. Takes no memory.
pub fn uid_of(
    system_key: &Text,
    root_key: &Option<Text>,
    packages: &List<Package>,
    key: &Text,
) -> Option<u32>
    ensures { result ≡ (if is_same system_key.now key.now then Some system_uid
        else root_or root_key.now key.now (uid_of_package packages.now key.now)) }
{
    if *system_key == *key {
        Some(SYSTEM)
    } else {
        root_or(root_key, key, uid_of_package(packages, key))
    }
}

/// The root's uid if this is its key, else the others' uid.
fn root_or(root_key: &Option<Text>, key: &Text, others: Option<u32>) -> Option<u32>
    ensures { result ≡ root_or root_key.now key.now others }
{
    match root_key {
        Some(root_key) if *root_key == *key => Some(ROOT),
        _ => others,
    }
}

/// The uid of the package with that key.
fn uid_of_package(packages: &List<Package>, key: &Text) -> Option<u32>
    ensures { result ≡ uid_of_package packages.now key.now }
{
    for installed in packages.as_slice() {
        if installed.key == *key {
            return Some(installed.uid);
        }
    }
    None
}

/// The key of the package with that uid. Takes no memory.
pub fn key_of_package(packages: &List<Package>, uid: u32) -> Option<&Text>
    ensures { option_copied result ≡ key_of_package packages.now uid }
{
    for installed in packages.as_slice() {
        if installed.uid == uid {
            return Some(&installed.key);
        }
    }
    None
}

/// Whether the system, the root or a package has the key. Takes no memory.
pub fn is_key_used(
    system_key: &Text,
    root_key: &Option<Text>,
    packages: &List<Package>,
    key: &Text,
) -> bool
    ensures { result ≡ ((is_same system_key.now key.now || is_root_key root_key.now key.now)
        || list_any (λ (p : Package). is_same p.key key.now) packages.now) }
{
    *system_key == *key || is_root_key(root_key, key) || is_package_key(packages, key)
}

/// Whether a package has the key.
fn is_package_key(packages: &List<Package>, key: &Text) -> bool
    ensures { result ≡ list_any (λ (p : Package). is_same p.key key.now) packages.now }
{
    packages
        .as_slice()
        .iter()
        .any(|installed| installed.key == *key)
}

/// Whether the root has the key.
fn is_root_key(root_key: &Option<Text>, key: &Text) -> bool
    ensures { result ≡ is_root_key root_key.now key.now }
{
    match root_key {
        None => false,
        Some(root_key) => *root_key == *key,
    }
}
