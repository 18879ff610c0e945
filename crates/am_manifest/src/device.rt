//! The device that a file describes.
ghost use Rattle.std.specs.Prelude.{◌≡◌, ◌≢◌, ◌≤◌, Err, IfOk, codes, length, map, [], ◌∷◌};
ghost use Rattle.std.specs.Option.{option_and_then};
ghost use Rattle.toml.specs.Data.{as_str};
ghost use Rattle.toml.specs.View.{view};
ghost use Rattle.am_types.specs.Reading.{Gives, GivesBy};
ghost use Rattle.am_manifest_filters.specs.Tables.{each};
ghost use Rattle.am_uri.specs.Texts.{with_text};
ghost use Rattle.am_model.specs.Sound.{IsSound};
ghost use Rattle.am_manifest.specs.Devices.{apart, device_in, device_of, first_taken, is_taken, manifest_at, owners_in, package_entry, package_of, packages_apart, packages_in, known_keys, roots_apart, rules_at, rules_named, shares_key, text_of};

use crate::manifest::{duplicate, manifest_in, root_of};
use crate::rights::rights_in;
use am_manifest_filters::{
    Position, ReadFault, at_most, entry_table, optional_text, optional_values, read_each,
    required_text, texts_at, within_key,
};
use am_types::{Device, List, Manifest, ManifestFault, Package, Rules, Text, Unmade};
use am_uri::Form;
use std::alloc::{AllocError, Global};
use std::collections::BTreeSet;
use toml::Value;

/// By whose rules a device answers, the keys of the system and of the root, and the browser.
#[derive(Drop)]
pub struct Owners {
    pub rules: Rules,
    pub system_key: Text,
    pub root_key: Option<Text>,
    pub browser: Option<Text>,
}

/// The manifest of a package.
#[tactic(auto, unfolding(crate::specs::Devices::manifest_at, crate::specs::Devices::manifest_found))]
fn manifest_at(alloc: Global, at: &str, table: &Value) -> Result<Manifest, ReadFault>
    ensures { Gives result (manifest_at at.now (view table.now)) }
{
    let position = Position::key(at, "manifest");
    let Some(value) = table.get("manifest") else {
        return Err(Unmade::Fault(ManifestFault::Missing(position.place(alloc)?)));
    };
    if !value.is_table() {
        return Err(position.wrong_kind(alloc));
    }
    let within = within_key(alloc, at, "manifest")?;
    manifest_in(alloc, within.as_str(), value)
}

/// The package in a table.
#[tactic(auto, unfolding(crate::specs::Devices::package_of))]
fn package_of(alloc: Global, uid: u32, at: &str, table: &Value) -> Result<Package, ReadFault>
    ensures { Gives result (package_of uid at.now (view table.now)) }
{
    let key = required_text(alloc, Form::AccessKey, at, "key", table)?;
    let manifest = manifest_at(alloc, at, table)?;
    Ok(Package {
        uid,
        name: manifest.package,
        key,
        stopped: false,
        decls: manifest.decls,
    })
}

/// An entry of the packages.
#[tactic(auto, unfolding(crate::specs::Devices::package_entry))]
fn package_entry(alloc: Global, i: usize, value: &Value) -> Result<Package, ReadFault>
    requires { i ≤ 256 }
    ensures { Gives result (package_entry i (view value.now)) }
{
    let within = entry_table(alloc, "", "package", i, value)?;
    package_of(alloc, 10_000 + i as u32, within.as_str(), value)
}

/// Each value as a package.
fn each_package(alloc: Global, values: &[Value]) -> Result<Vec<Package>, ReadFault>
    requires { length values.now ≤ 256 }
    ensures { GivesBy (λ packages. packages.items) result (each package_entry 0 (map view values.now)) }
{
    read_each(alloc, values, |i, value| package_entry(alloc, i, value))
}

/// The packages of a device.
#[tactic(auto, unfolding(crate::specs::Devices::packages_in, am_manifest_filters::specs::Tables::at_most))]
fn packages_in(alloc: Global, table: &Value) -> Result<Vec<Package>, ReadFault>
    ensures { GivesBy (λ packages. packages.items) result (packages_in (view table.now)) }
{
    let values = optional_values(alloc, "", "package", table)?;
    at_most(alloc, 256, "packages", values.len())?;
    each_package(alloc, values)
}

/// Whether the name or the key of the package is among these.
fn is_taken(package: &Package, names: &BTreeSet<Text>, keys: &BTreeSet<Text>) -> bool
    ensures { result ≡ is_taken names.now.keys keys.now.keys «package».now }
{
    if names.contains(&package.name) {
        return true;
    }
    keys.contains(&package.key)
}

/// The name of the first package whose name or key is known or was taken by an earlier one.
fn first_taken(
    alloc: Global,
    names: BTreeSet<Text>,
    keys: BTreeSet<Text>,
    packages: &[Package],
) -> Result<Option<Text>, AllocError>
    ensures { IfOk result (λ name. name ≡ first_taken names.keys keys.keys packages.now) }
{
    let mut names = names;
    let mut keys = keys;
    for package in packages {
        if is_taken(package, &names, &keys) {
            return Ok(Some(package.name.clone()?));
        }
        names.insert(package.name.clone()?)?;
        keys.insert(package.key.clone()?)?;
    }
    Ok(None)
}

/// The names that no package may have.
fn known_names(alloc: Global) -> Result<BTreeSet<Text>, AllocError>
    ensures { IfOk result (λ names. names.keys ≡ codes "android" ∷ []) }
{
    let mut names = BTreeSet::new(alloc);
    names.insert(Text::of(alloc, "android")?)?;
    Ok(names)
}

/// The keys that no package may have.
fn known_keys(alloc: Global, owners: &Owners) -> Result<BTreeSet<Text>, AllocError>
    ensures { IfOk result (λ keys. keys.keys ≡ known_keys owners.now) }
{
    let mut keys = BTreeSet::new(alloc);
    keys.insert(owners.system_key.clone()?)?;
    if let Some(root_key) = &owners.root_key {
        keys.insert(root_key.clone()?)?;
    }
    Ok(keys)
}

/// Whether the root has the key of the system.
fn shares_key(owners: &Owners) -> bool
    ensures { result ≡ shares_key owners.now owners.now.root_key }
{
    match &owners.root_key {
        None => false,
        Some(key) => key.as_str() == owners.system_key.as_str(),
    }
}

/// Refuses a root with the key of the system.
#[tactic(auto, unfolding(crate::specs::Devices::roots_apart))]
fn roots_apart(alloc: Global, owners: &Owners) -> Result<(), ReadFault>
    ensures { Gives result (roots_apart owners.now) }
{
    if shares_key(owners) {
        return Err(duplicate(alloc, "root_key"));
    }
    Ok(())
}

/// Refuses packages whose names and keys aren't distinct, also from those of the system and the root.
#[tactic(auto, unfolding(crate::specs::Devices::apart, crate::specs::Devices::unless_taken))]
fn are_apart(alloc: Global, owners: &Owners, packages: &[Package]) -> Result<(), ReadFault>
    ensures { GivesBy (λ _. packages.now) result (apart owners.now packages.now) }
{
    roots_apart(alloc, owners)?;
    let names = known_names(alloc)?;
    let keys = known_keys(alloc, owners)?;
    if let Some(name) = first_taken(alloc, names, keys, packages)? {
        return Err(Unmade::Fault(ManifestFault::Duplicate(name)));
    }
    Ok(())
}

/// The packages, if their names and keys are distinct, also from those of the system and the root.
fn apart(alloc: Global, owners: &Owners, packages: Vec<Package>) -> Result<Vec<Package>, ReadFault>
    ensures { GivesBy (λ packages. packages.items) result (apart owners.now packages.items) }
{
    match are_apart(alloc, owners, &packages) {
        Ok(()) => Ok(packages),
        Err(fault) => {
            drop(packages);
            Err(fault)
        }
    }
}

/// The packages of a device, with distinct names and keys.
#[tactic(auto, unfolding(crate::specs::Devices::packages_apart))]
fn packages_apart(alloc: Global, owners: &Owners, table: &Value) -> Result<Vec<Package>, ReadFault>
    ensures { GivesBy (λ packages. packages.items) result (packages_apart owners.now (view table.now)) }
{
    let packages = packages_in(alloc, table)?;
    apart(alloc, owners, packages)
}

/// The rules with this name.
fn rules_named(word: &str) -> Option<Rules>
    ensures { result ≡ rules_named word.now }
{
    match word {
        "profile" => Some(Rules::Profile),
        "android-12" => Some(Rules::Android12),
        _ => None,
    }
}

/// The rules that a value names.
fn rules_of(value: &Value) -> Option<Rules>
    ensures { result ≡ option_and_then rules_named (as_str (view value.now)) }
{
    match value.as_str() {
        None => None,
        Some(word) => rules_named(word),
    }
}

/// By whose rules a device answers: the profile's, if none are named.
#[tactic(auto, unfolding(crate::specs::Devices::rules_at, crate::specs::Devices::rules_in, crate::specs::Devices::rules_or))]
fn rules_at(alloc: Global, table: &Value) -> Result<Rules, ReadFault>
    ensures { Gives result (rules_at (view table.now)) }
{
    let Some(value) = table.get("rules") else {
        return Ok(Rules::Profile);
    };
    let position = Position::key("", "rules");
    match rules_of(value) {
        None => Err(position.wrong_kind(alloc)),
        Some(rules) => Ok(rules),
    }
}

/// By whose rules a device answers, the keys of the system and of the root, and the browser.
#[tactic(auto, unfolding(crate::specs::Devices::owners_in))]
fn owners_in(alloc: Global, table: &Value) -> Result<Owners, ReadFault>
    ensures { Gives result (owners_in (view table.now)) }
{
    let rules = rules_at(alloc, table)?;
    let system_key = required_text(alloc, Form::AccessKey, "", "system_key", table)?;
    let root_key = optional_text(alloc, Form::AccessKey, "", "root_key", table)?;
    let browser = optional_text(alloc, Form::PackageName, "", "browser", table)?;
    Ok(Owners {
        rules,
        system_key,
        root_key,
        browser,
    })
}

/// The device in a table.
#[tactic(auto, unfolding(crate::specs::Devices::device_in))]
fn device_in(alloc: Global, table: &Value) -> Result<Device, ReadFault>
    ensures { Gives result (device_in (view table.now)) }
{
    let owners = owners_in(alloc, table)?;
    let protected = texts_at(alloc, Form::Filled, "", "protected", 1024, table)?;
    let exempt = texts_at(alloc, Form::Filled, "", "exempt", 1024, table)?;
    let packages = packages_apart(alloc, &owners, table)?;
    let rights = rights_in(alloc, &packages, table)?;
    Ok(Device {
        rules: owners.rules,
        system_key: owners.system_key,
        root_key: owners.root_key,
        browser: owners.browser,
        protected: List::new(protected),
        exempt: List::new(exempt),
        packages: List::new(packages),
        grants: rights.grants,
        links: rights.links,
    })
}

/// The bytes as a text.
///
/// # Errors
///
/// If they aren't UTF-8.
#[tactic(auto, unfolding(crate::specs::Devices::text_of))]
pub fn text_of(bytes: &[u8]) -> Result<&str, ReadFault>
    ensures reads { GivesBy (λ text. text.now) result (text_of bytes.now) }
    ensures memory { result ≢ Err Unmade.NoMemory }
{
    match std::str::from_utf8(bytes) {
        Ok(text) => Ok(text),
        Err(_) => Err(Unmade::Fault(ManifestFault::NotToml)),
    }
}

/// Reads a device file: at most 16,777,216 bytes of TOML in UTF-8.
///
/// The packages get the uids from 10,000 on, in the order of the file; an absent list is empty. A device that is read
/// is sound: the names and keys of its packages are distinct, and so are the classes of each; grants and links belong
/// to its packages, in order, each once; everything is within the limits.
///
/// # Errors
///
/// `Unmade::Fault` has the first fault found, with its place; `Unmade::NoMemory` may come at any
/// place.
#[tactic(auto, unfolding(crate::specs::Devices::device_of))]
pub fn read_device(alloc: Global, bytes: &[u8]) -> Result<Device, ReadFault>
    ensures reads { Gives result (device_of bytes.now) }
    ensures sound { IfOk result (λ device. IsSound device) }
{
    at_most(alloc, 16_777_216, "device", bytes.len())?;
    let text = text_of(bytes)?;
    let root = root_of(alloc, text)?;
    device_in(alloc, &root)
}
