//! A device with the queries of its packages.
ghost use Rattle.std.specs.Prelude.{◌≡◌, IfOk, codes, length, map, option_and_then, option_map};
ghost use Rattle.toml.specs.Data.{get};
ghost use Rattle.toml.specs.View.{view};
ghost use Rattle.am_types.specs.Reading.{Gives, GivesBy};
ghost use Rattle.am_manifest_filters.specs.Tables.{each};
ghost use Rattle.am_model.specs.Sound.{IsSound};
ghost use Rattle.am_manifest_queries.specs.Queries.{all_queries, described, package_queries, queries_of, text_queries};

use crate::queries::queries_in;
use am_manifest::{read_device, root_of, text_of};
use am_manifest_filters::{ReadFault, entry_table, optional_values, read_each, within_key};
use am_types::{Device, List, Queries};
use std::alloc::Global;
use toml::Value;

/// What a device file describes.
#[derive(Drop)]
pub struct Described {
    pub device: Device,
    /// What each of its packages asks to see, in the order of the packages.
    pub queries: List<Queries>,
}

/// The value at the key `queries` of a package's manifest.
fn queries_value(package: &Value) -> Option<&Value>
    ensures { option_map (λ value. view value.now) result
        ≡ option_and_then (get (codes "queries")) (get (codes "manifest") (view «package».now)) }
{
    match package.get("manifest") {
        None => None,
        Some(manifest) => manifest.get("queries"),
    }
}

/// The queries of a package that is an entry.
#[tactic(auto, unfolding(crate::specs::Queries::package_queries))]
fn package_queries(alloc: Global, i: usize, package: &Value) -> Result<Queries, ReadFault>
    ensures { Gives result (package_queries i (view «package».now)) }
{
    let within = entry_table(alloc, "", "package", i, package)?;
    let within = within_key(alloc, within.as_str(), "manifest")?;
    queries_in(alloc, within.as_str(), queries_value(package))
}

/// The queries of each package.
fn each_package(alloc: Global, values: &[Value]) -> Result<Vec<Queries>, ReadFault>
    ensures { GivesBy (λ all. all.items) result (each package_queries 0 (map view values.now)) }
{
    read_each(
        alloc,
        values,
        |i, package| package_queries(alloc, i, package),
    )
}

/// The queries of the packages of a device.
#[tactic(auto, unfolding(crate::specs::Queries::all_queries))]
fn all_queries(alloc: Global, root: &Value) -> Result<Vec<Queries>, ReadFault>
    ensures { GivesBy (λ all. all.items) result (all_queries (view root.now)) }
{
    let values = optional_values(alloc, "", "package", root)?;
    each_package(alloc, values)
}

/// The queries of a text.
#[tactic(auto, unfolding(crate::specs::Queries::text_queries))]
fn text_queries(alloc: Global, bytes: &[u8]) -> Result<Vec<Queries>, ReadFault>
    ensures { GivesBy (λ all. all.items) result (text_queries bytes.now) }
{
    let text = text_of(bytes)?;
    let root = root_of(alloc, text)?;
    all_queries(alloc, &root)
}

/// Reads a device file as `read_device` does, and the table `queries` of each manifest in it.
///
/// That table may have `package`, at most 64 names of packages, which need not be installed, and `intent`, at most 64
/// tables with `action`, a text that isn't empty, and optionally `category`, at most 64 texts, `scheme`, `host` and
/// `mimeType`. A manifest without the table asks for nothing. (The `<queries>` element of the reference; without
/// providers, and without `*` in an intent's scheme or host.)
///
/// # Errors
///
/// `Unmade::Fault` has the first fault found, with its place: first those of the device, then those of the tables
/// `queries`, package by package. In a table of `intent` an unknown key is `LeftOut`, before the table's other faults.
/// `Unmade::NoMemory` may come at any place.
#[tactic(auto, unfolding(crate::specs::Queries::described))]
pub fn read_described(alloc: Global, bytes: &[u8]) -> Result<Described, ReadFault>
    ensures reads { Gives result (described bytes.now) }
    ensures sound { IfOk result (λ known. IsSound known.device) }
    ensures each { IfOk result (λ known. length known.queries ≡ length known.device.packages) }
{
    let device = read_device(alloc, bytes)?;
    match text_queries(alloc, bytes) {
        Ok(queries) => Ok(Described {
            device,
            queries: List::new(queries),
        }),
        Err(fault) => {
            drop(device);
            Err(fault)
        }
    }
}

/// Reads what each package of a device file asks to see, in the order of the packages.
///
/// # Errors
///
/// As for [`read_described`].
#[tactic(auto, unfolding(crate::specs::Queries::queries_of))]
pub fn read_queries(alloc: Global, bytes: &[u8]) -> Result<List<Queries>, ReadFault>
    ensures { Gives result (queries_of bytes.now) }
{
    let Described { device, queries } = read_described(alloc, bytes)?;
    drop(device);
    Ok(queries)
}
