//! The manifest of a package.
ghost use Rattle.std.specs.Prelude.{◌≡◌, ℕ, List as Items, IfOk, Some, if◌then◌else◌, ◌++◌};
ghost use Rattle.toml.specs.Errors.{IsMemory};
ghost use Rattle.toml.specs.Parse.{parse_document};
ghost use Rattle.toml.specs.View.{view};
ghost use Rattle.am_types.specs.declared.manifest.ManifestFault.TheVariants.{Duplicate};
ghost use Rattle.am_types.specs.Reading.{Gives, GivesBy, IsFault};
ghost use Rattle.am_manifest.specs.Components.{components_at};
ghost use Rattle.am_manifest.specs.Manifests.{IsAppManifest, classes, decls_in, first_repeated, manifest_alone, manifest_in, manifest_made, manifest_of, root_of};

use crate::components::components_at;
use am_manifest_filters::{ReadFault, at_most, required_text};
use am_types::{Decl, Kind, List, Manifest, ManifestFault, Text, Unmade};
use am_uri::Form;
use std::alloc::{AllocError, Global};
use std::collections::BTreeSet;
use toml::Value;

/// The class, if it occurs again, otherwise the other one.
fn class_or(class: &Text, again: bool, other: Option<Text>) -> Result<Option<Text>, AllocError>
    ensures { IfOk result (λ first. first ≡ (if again then Some class.now else other)) }
{
    if again {
        return Ok(Some(class.clone()?));
    }
    Ok(other)
}

/// The first class that occurs again later.
fn first_repeated(alloc: Global, decls: &[Decl]) -> Result<Option<Text>, AllocError>
    ensures { IfOk result (λ class. class ≡ first_repeated (classes decls.now)) }
{
    let mut later = BTreeSet::new(alloc);
    let mut repeated = None;
    let mut i = decls.len();
    while i > 0 {
        i -= 1;
        let class = &decls[i].class;
        repeated = class_or(class, later.contains(class), repeated)?;
        later.insert(class.clone()?)?;
    }
    Ok(repeated)
}

/// The fault that this occurs twice, or that memory ran out.
pub(crate) fn duplicate(alloc: Global, name: &str) -> ReadFault
    ensures { IsFault result (Duplicate name.now) }
{
    match Text::of(alloc, name) {
        Ok(name) => Unmade::Fault(ManifestFault::Duplicate(name)),
        Err(_) => Unmade::NoMemory,
    }
}

/// Refuses more than 256 components of a package, and a class that occurs twice.
#[tactic(auto, unfolding(crate::specs::Manifests::manifest_made, crate::specs::Manifests::unless_repeated))]
fn are_distinct(alloc: Global, decls: &[Decl]) -> Result<(), ReadFault>
    ensures { («package» : Items ℕ) →
        GivesBy (λ _. record { «package» = «package»; decls = decls.now }) result (manifest_made «package» decls.now) }
{
    at_most(alloc, 256, "components", decls.len())?;
    if let Some(class) = first_repeated(alloc, decls)? {
        return Err(Unmade::Fault(ManifestFault::Duplicate(class)));
    }
    Ok(())
}

/// The manifest with these components: at most 256, of distinct classes.
fn manifest_made(alloc: Global, package: Text, decls: Vec<Decl>) -> Result<Manifest, ReadFault>
    ensures { Gives result (manifest_made «package» decls.items) }
{
    match are_distinct(alloc, &decls) {
        Ok(()) => Ok(Manifest {
            package,
            decls: List::new(decls),
        }),
        Err(fault) => {
            drop(decls);
            Err(fault)
        }
    }
}

/// The first components, then the others.
fn joined(first: Vec<Decl>, others: Vec<Decl>) -> Result<Vec<Decl>, AllocError>
    ensures { IfOk result (λ all. all.items ≡ first.items ++ others.items) }
{
    let mut all = first;
    let mut others = others;
    all.append(&mut others)?;
    Ok(all)
}

/// The components of a package: activities, then services, then receivers.
#[tactic(auto, unfolding(crate::specs::Manifests::decls_in))]
fn decls_in(alloc: Global, package: &Text, at: &str, table: &Value) -> Result<Vec<Decl>, ReadFault>
    ensures { GivesBy (λ decls. decls.items) result (decls_in «package».now at.now (view table.now)) }
{
    let activities = components_at(alloc, Kind::Activity, package, at, "activity", table)?;
    let services = components_at(alloc, Kind::Service, package, at, "service", table)?;
    let receivers = components_at(alloc, Kind::Receiver, package, at, "receiver", table)?;
    Ok(joined(activities, joined(services, receivers)?)?)
}

/// The manifest in a table whose keys' places begin with `at`.
#[tactic(auto, unfolding(crate::specs::Manifests::manifest_in))]
pub fn manifest_in(alloc: Global, at: &str, table: &Value) -> Result<Manifest, ReadFault>
    ensures { Gives result (manifest_in at.now (view table.now)) }
{
    let name = required_text(alloc, Form::PackageName, at, "package", table)?;
    let decls = decls_in(alloc, &name, at, table)?;
    manifest_made(alloc, name, decls)
}

/// A manifest read by itself, which may not be that of the system's package.
#[tactic(auto, unfolding(crate::specs::Manifests::manifest_alone))]
fn manifest_alone(alloc: Global, table: &Value) -> Result<Manifest, ReadFault>
    ensures { Gives result (manifest_alone (view table.now)) }
{
    let manifest = manifest_in(alloc, "", table)?;
    if manifest.package.as_str() == "android" {
        drop(manifest);
        return Err(duplicate(alloc, "android"));
    }
    Ok(manifest)
}

/// The fault of a text for which `toml` gave this error: it isn't TOML, unless memory ran out.
fn fault_of(error: &toml::de::Error) -> ReadFault
    ensures memory { IsMemory error.now → result ≡ Unmade.NoMemory }
    ensures refused { ¬ IsMemory error.now → result ≡ Unmade.Fault ManifestFault.NotToml }
{
    if error.is_memory() {
        Unmade::NoMemory
    } else {
        Unmade::Fault(ManifestFault::NotToml)
    }
}

/// The table that a text is, as a TOML document.
///
/// # Errors
///
/// If the text isn't one, and if memory runs out.
#[tactic(auto, unfolding(crate::specs::Manifests::root_of))]
pub fn root_of(alloc: Global, text: &str) -> Result<Value, ReadFault>
    ensures { GivesBy (λ root. view root) result (root_of (parse_document text.now)) }
{
    match toml::table_from_str(alloc, text) {
        Ok(table) => Ok(Value::Table(table)),
        Err(error) => Err(fault_of(&error)),
    }
}

/// Reads a manifest by itself: at most 65,536 bytes of TOML. Its package may not be `android`.
///
/// A manifest that is read is sound: the classes of its components, at most 256, are distinct, and what their filters
/// list is within the limits.
///
/// # Errors
///
/// `Unmade::Fault` has the first fault found, with its place; `Unmade::NoMemory` may come at any
/// place.
#[tactic(auto, unfolding(crate::specs::Manifests::manifest_of))]
pub fn read_package(alloc: Global, text: &Text) -> Result<Manifest, ReadFault>
    ensures reads { Gives result (manifest_of text.now) }
    ensures sound { IfOk result (λ manifest. IsAppManifest manifest) }
{
    let text = text.as_str();
    at_most(alloc, 65_536, "text", text.len())?;
    let root = root_of(alloc, text)?;
    manifest_alone(alloc, &root)
}
