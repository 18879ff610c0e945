//! The components that a package declares.
ghost use Rattle.std.specs.Prelude.{◌≡◌, IfOk, map, option_and_then, unwrap_or};
ghost use Rattle.toml.specs.Data.{as_str};
ghost use Rattle.toml.specs.View.{view};
ghost use Rattle.am_types.specs.Reading.{Gives, GivesBy};
ghost use Rattle.am_manifest_filters.specs.Tables.{each};
ghost use Rattle.am_manifest.specs.Components.{has_dot, full_class, heading_of, is_activity, mode_named, mode_at, activity_launch, launch_of, exported_of, declared, component_entry, components_at};

use am_manifest_filters::{
    Filters, Position, ReadFault, entry_table, filters_at, optional_text, optional_truth,
    optional_values, read_each, required_text,
};
use am_types::{Decl, Kind, ManifestFault, Mode, Text, Unmade};
use am_uri::{Form, starts_with_dot};
use std::alloc::{AllocError, Global};
use toml::Value;

/// The first part of a component's table.
#[derive(Drop)]
pub struct Heading {
    /// The full class.
    pub class: Text,
    /// Whether others may reach it, if that is given.
    pub exported: Option<bool>,
    pub enabled: bool,
}

/// How a component is launched, and who may launch it.
#[derive(Drop)]
pub struct Launch {
    pub permission: Option<Text>,
    pub mode: Mode,
    pub affinity: Text,
}

fn has_dot(text: &str) -> bool
    ensures { result ≡ has_dot text.now }
{
    text.as_bytes().iter().any(|b| *b == b'.')
}

/// The full name of a class: in its package, unless it has a dot of its own.
fn full_class(alloc: Global, package: &str, class: Text) -> Result<Text, AllocError>
    ensures { IfOk result (λ full. full ≡ full_class «package».now class) }
{
    let name = class.as_str();
    if starts_with_dot(name) {
        return Ok(Text::new(format!(in alloc; "{package}{name}")?));
    }
    if !has_dot(name) {
        return Ok(Text::new(format!(in alloc; "{package}.{name}")?));
    }
    Ok(class)
}

/// What a component's table has before its filters.
#[tactic(auto, unfolding(crate::specs::Components::heading_of))]
fn heading_of(alloc: Global, package: &Text, at: &str, table: &Value) -> Result<Heading, ReadFault>
    ensures { Gives result (heading_of «package».now at.now (view table.now)) }
{
    let class = required_text(alloc, Form::Class, at, "name", table)?;
    let exported = optional_truth(alloc, at, "exported", table)?;
    let enabled = optional_truth(alloc, at, "enabled", table)?;
    let class = full_class(alloc, package.as_str(), class)?;
    Ok(Heading {
        class,
        exported,
        enabled: enabled.unwrap_or(true),
    })
}

/// Only activities have a launch mode and an affinity of their own.
fn is_activity(kind: Kind) -> bool
    ensures { result ≡ is_activity kind }
{
    kind == Kind::Activity
}

/// The launch mode with this name.
fn mode_named(word: &str) -> Option<Mode>
    ensures { result ≡ mode_named word.now }
{
    match word {
        "standard" => Some(Mode::Standard),
        "singleTop" => Some(Mode::SingleTop),
        "singleTask" => Some(Mode::SingleTask),
        "singleInstance" => Some(Mode::SingleInstance),
        "singleInstancePerTask" => Some(Mode::SingleInstancePerTask),
        _ => None,
    }
}

/// The launch mode that a value names.
fn mode_of(value: &Value) -> Option<Mode>
    ensures { result ≡ option_and_then mode_named (as_str (view value.now)) }
{
    match value.as_str() {
        None => None,
        Some(word) => mode_named(word),
    }
}

/// The launch mode of an activity.
#[tactic(auto, unfolding(crate::specs::Components::mode_at, crate::specs::Components::mode_in, crate::specs::Components::mode_or))]
fn mode_at(alloc: Global, at: &str, table: &Value) -> Result<Mode, ReadFault>
    ensures { Gives result (mode_at at.now (view table.now)) }
{
    let Some(value) = table.get("launchMode") else {
        return Ok(Mode::Standard);
    };
    let position = Position::key(at, "launchMode");
    match mode_of(value) {
        None => Err(position.wrong_kind(alloc)),
        Some(mode) => Ok(mode),
    }
}

/// The text if there is one, otherwise the other one.
fn text_or(text: Option<Text>, other: &Text) -> Result<Text, AllocError>
    ensures { IfOk result (λ chosen. chosen ≡ unwrap_or text other.now) }
{
    match text {
        Some(text) => Ok(text),
        None => other.clone(),
    }
}

/// How an activity is launched.
#[tactic(auto, unfolding(crate::specs::Components::activity_launch))]
fn activity_launch(
    alloc: Global,
    permission: Option<Text>,
    package: &Text,
    at: &str,
    table: &Value,
) -> Result<Launch, ReadFault>
    ensures { Gives result (activity_launch permission «package».now at.now (view table.now)) }
{
    let mode = mode_at(alloc, at, table)?;
    let affinity = optional_text(alloc, Form::Any, at, "taskAffinity", table)?;
    let affinity = text_or(affinity, package)?;
    Ok(Launch {
        permission,
        mode,
        affinity,
    })
}

/// How a component is launched, and who may launch it.
#[tactic(auto, unfolding(crate::specs::Components::launch_of, crate::specs::Components::launch_with))]
fn launch_of(
    alloc: Global,
    kind: Kind,
    package: &Text,
    at: &str,
    table: &Value,
) -> Result<Launch, ReadFault>
    ensures { Gives result (launch_of kind «package».now at.now (view table.now)) }
{
    let permission = optional_text(alloc, Form::Filled, at, "permission", table)?;
    if is_activity(kind) {
        return activity_launch(alloc, permission, package, at, table);
    }
    Ok(Launch {
        permission,
        mode: Mode::Standard,
        affinity: package.clone()?,
    })
}

/// Whether others may reach a component: as given; if it isn't given, no if the component's table lists no filter.
#[tactic(auto, unfolding(crate::specs::Components::exported_of))]
fn exported_of(class: &Text, written: bool, stated: Option<bool>) -> Result<bool, ReadFault>
    ensures { Gives result (exported_of class.now written stated) }
{
    match stated {
        Some(exported) => Ok(exported),
        None if written => {
            let class = class.clone()?;
            Err(Unmade::Fault(ManifestFault::ExportedUnstated(class)))
        }
        None => Ok(false),
    }
}

/// The component assembled from these parts.
#[tactic(auto, unfolding(crate::specs::Components::declared))]
fn declared(
    kind: Kind,
    heading: Heading,
    launch: Launch,
    filters: Filters,
) -> Result<Decl, ReadFault>
    ensures { Gives result (declared kind heading launch filters) }
{
    match exported_of(&heading.class, filters.written, heading.exported) {
        Ok(exported) => Ok(Decl {
            kind,
            class: heading.class,
            exported,
            enabled: heading.enabled,
            permission: launch.permission,
            mode: launch.mode,
            affinity: launch.affinity,
            filters: filters.kept,
        }),
        Err(fault) => {
            drop(filters);
            Err(fault)
        }
    }
}

/// An entry of the components at a key.
#[tactic(auto, unfolding(crate::specs::Components::component_entry, crate::specs::Components::component_of))]
fn component_entry(
    alloc: Global,
    kind: Kind,
    package: &Text,
    at: &str,
    key: &str,
    i: usize,
    value: &Value,
) -> Result<Decl, ReadFault>
    ensures { Gives result (component_entry kind «package».now at.now key.now i (view value.now)) }
{
    let within = entry_table(alloc, at, key, i, value)?;
    let at = within.as_str();
    let heading = heading_of(alloc, package, at, value)?;
    let launch = launch_of(alloc, kind, package, at, value)?;
    let filters = filters_at(alloc, at, value)?;
    declared(kind, heading, launch, filters)
}

/// Each value as a component.
fn each_component(
    alloc: Global,
    kind: Kind,
    package: &Text,
    at: &str,
    key: &str,
    values: &[Value],
) -> Result<Vec<Decl>, ReadFault>
    ensures { GivesBy (λ decls. decls.items) result
        (each (component_entry kind «package».now at.now key.now) 0 (map view values.now)) }
{
    read_each(alloc, values, |i, value| {
        component_entry(alloc, kind, package, at, key, i, value)
    })
}

/// The components at a key.
#[tactic(auto, unfolding(crate::specs::Components::components_at))]
pub fn components_at(
    alloc: Global,
    kind: Kind,
    package: &Text,
    at: &str,
    key: &str,
    table: &Value,
) -> Result<Vec<Decl>, ReadFault>
    ensures { GivesBy (λ decls. decls.items) result (components_at kind «package».now at.now key.now (view table.now)) }
{
    let values = optional_values(alloc, at, key, table)?;
    each_component(alloc, kind, package, at, key, values)
}
