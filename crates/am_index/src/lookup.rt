//! Which keys an intent asks for, and what is listed under them.
ghost use Rattle.std.specs.Prelude.{◌≡◌, ◌++◌, codes, IfOk, OnOk};
ghost use Rattle.am_index.specs.Lists.{spots_at};
ghost use Rattle.am_index.specs.Lookups.{data_groups_for, groups_for, key_of, keys_of, owner_of, spots_for, type_groups};

use crate::key::{Group, Key, Spot};
use crate::lists::Lists;
use crate::merge::merged;
use am_filter::is_any_type;
use am_types::{Component, Intent, Kind, Mime, NoMemory, Text, Uri};
use std::alloc::{AllocError, Global};

/// The spots that are listed for an intent.
pub(crate) fn spots_for(
    alloc: Global,
    lists: &Lists,
    kind: Kind,
    intent: &Intent,
) -> Result<Vec<Spot>, NoMemory>
    ensures { IfOk result (λ spots. spots.items ≡ spots_for lists.now kind intent.now) }
{
    let keys = keys_of(alloc, kind, intent)?;
    let mut spots = Vec::new(alloc);
    for key in keys.as_slice() {
        spots = merged(alloc, spots.as_slice(), spots_at(lists, key))?;
    }
    Ok(spots)
}

/// The spots listed under a key.
fn spots_at<'a>(lists: &'a Lists, key: &Key) -> &'a [Spot]
    ensures { result.now ≡ spots_at lists.now key.now }
{
    match lists.get(key) {
        Some(spots) => spots.as_slice(),
        None => &[],
    }
}

/// The keys that an intent asks for.
fn keys_of(alloc: Global, kind: Kind, intent: &Intent) -> Result<Vec<Key>, NoMemory>
    ensures { IfOk result (λ keys. keys.items ≡ keys_of kind intent.now) }
{
    let groups = groups_for(alloc, intent)?;
    let owner = owner_of(&intent.component, &intent.package)?;
    let mut keys = Vec::new(alloc);
    for group in groups.as_slice() {
        keys.push(key_of(kind, &owner, group)?)?;
    }
    Ok(keys)
}

/// The key of a group.
fn key_of(kind: Kind, owner: &Option<Text>, group: &Group) -> Result<Key, AllocError>
    ensures { IfOk result (λ key. key ≡ key_of kind owner.now group.now) }
{
    let owner = owner.clone()?;
    let group = group.clone()?;
    Ok(Key { kind, owner, group })
}

/// The package that an intent names, through its component or directly.
fn owner_of(
    component: &Option<Component>,
    limited: &Option<Text>,
) -> Result<Option<Text>, AllocError>
    ensures { IfOk result (λ owner. owner ≡ owner_of component.now limited.now) }
{
    match (component, limited) {
        (Some(component), _) => Ok(Some(component.package.clone()?)),
        (None, Some(name)) => Ok(Some(name.clone()?)),
        (None, None) => Ok(None),
    }
}

/// The groups of an intent: of the class that it names, otherwise of its action, otherwise of its data.
fn groups_for(alloc: Global, intent: &Intent) -> Result<Vec<Group>, NoMemory>
    ensures { IfOk result
        (λ groups. groups.items ≡ groups_for intent.now.component intent.now.action intent.now.uri intent.now.mime) }
{
    let mut groups = Vec::new(alloc);
    match (&intent.component, &intent.action) {
        (Some(component), _) => groups.push(Group::Class(component.class.clone()?))?,
        (None, Some(action)) => groups.push(Group::Action(action.clone()?))?,
        (None, None) => add_data(alloc, &mut groups, &intent.uri, &intent.mime)?,
    }
    Ok(groups)
}

/// Adds the groups of the data of an intent without an action.
fn add_data(
    alloc: Global,
    groups: &mut Vec<Group>,
    uri: &Option<Uri>,
    mime: &Option<Mime>,
) -> Result<(), NoMemory>
    ensures { OnOk result (groups.new.items ≡ groups.old.items ++ data_groups_for uri.now mime.now) }
{
    match (uri, mime) {
        (None, None) => groups.push(Group::Bare)?,
        (Some(uri), None) => groups.push(Group::Scheme(uri.scheme.clone()?))?,
        (None, Some(mime)) => add_type(alloc, groups, mime)?,
        (Some(uri), Some(mime)) => {
            groups.push(Group::Scheme(uri.scheme.clone()?))?;
            add_type(alloc, groups, mime)?;
        }
    }
    Ok(())
}

/// Adds the groups of a type: all types if it covers every other type; otherwise the types with its
/// main part, and those whose main part covers every other.
fn add_type(alloc: Global, groups: &mut Vec<Group>, mime: &Mime) -> Result<(), NoMemory>
    ensures { OnOk result (groups.new.items ≡ groups.old.items ++ type_groups mime.now) }
{
    if is_any_type(mime) {
        groups.push(Group::Typed)?;
    } else {
        let any = Text::of(alloc, "*")?;
        groups.push(Group::Main(mime.main.clone()?))?;
        groups.push(Group::Main(any))?;
    }
    Ok(())
}
