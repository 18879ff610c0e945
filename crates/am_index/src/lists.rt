//! The lists of an index: which spots are under which keys.
ghost use Rattle.std.specs.Prelude.{◌≡◌, ◌&&◌, ◌++◌, ◌≤◌, [], length, not, if◌then◌else◌, OnOk};
ghost use Rattle.am_model.specs.Filters.{is_empty};
ghost use Rattle.am_index.specs.declared.key.Key.{Key};
ghost use Rattle.am_model.specs.Candidates.{is_kind};
ghost use Rattle.am_index.specs.Keys.{is_for, is_under, same_group, same_key};
ghost use Rattle.am_index.specs.Lists.{spots_at, noted, asks_for, KeepsOthers};
ghost use Rattle.am_index.specs.Members.{spots_of_package, spots_without};

use crate::groups::groups_of;
use crate::key::{Group, Key, Spot};
use am_types::{Decl, Kind, NoMemory, Package, Text};
use std::alloc::Global;
use std::collections::HashMap;

/// The lists by their keys.
pub(crate) type Lists = HashMap<Key, Vec<Spot>>;

/// Adds a spot to the list under a key. If memory runs out, the lists don't change.
pub(crate) fn note(alloc: Global, lists: &mut Lists, key: Key, spot: Spot) -> Result<(), NoMemory>
    ensures noted { OnOk result
        ((k : Key) → spots_at lists.new k ≡ noted (same_key k key) spot (spots_at lists.old k)) }
    ensures others { KeepsOthers spot.uid lists.old lists.new }
{
    match lists.get_mut(&key) {
        Some(spots) => spots.push(spot)?,
        None => {
            let mut spots = Vec::new(alloc);
            spots.push(spot)?;
            lists.insert(key, spots)?;
        }
    }
    Ok(())
}

/// Adds a spot to the lists of a group: the one for all packages, and the one for its own package.
fn note_group(
    alloc: Global,
    lists: &mut Lists,
    kind: Kind,
    owner: &Text,
    group: &Group,
    spot: Spot,
) -> Result<(), NoMemory>
    ensures noted { OnOk result
        ((key : Key) → spots_at lists.new key
        ≡ noted (is_kind key.kind kind && (is_for key.owner owner.now && same_group key.group group.now)) spot
        (spots_at lists.old key)) }
    ensures others { KeepsOthers spot.uid lists.old lists.new }
{
    let every = Key {
        kind,
        owner: None,
        group: group.clone()?,
    };
    let own = Key {
        kind,
        owner: Some(owner.clone()?),
        group: group.clone()?,
    };
    note(alloc, lists, every, spot)?;
    note(alloc, lists, own, spot)
}

/// Adds a spot to the lists of some groups, once to each.
pub(crate) fn note_groups(
    alloc: Global,
    lists: &mut Lists,
    kind: Kind,
    owner: &Text,
    groups: &[Group],
    spot: Spot,
) -> Result<(), NoMemory>
    ensures noted { OnOk result
        ((key : Key) → spots_at lists.new key
        ≡ noted (asks_for kind owner.now groups.now key) spot (spots_at lists.old key)) }
    ensures others { KeepsOthers spot.uid lists.old lists.new }
{
    for (i, group) in groups.iter().enumerate() {
        if !groups[..i].contains(group) {
            note_group(alloc, lists, kind, owner, group, spot)?;
        }
    }
    Ok(())
}

/// Adds the spot of a component, if it is enabled, to all lists that it belongs to.
fn note_enabled(
    alloc: Global,
    lists: &mut Lists,
    owner: &Package,
    decl: &Decl,
    spot: Spot,
) -> Result<(), NoMemory>
    ensures noted { OnOk result
        ((key : Key) → spots_at lists.new key
        ≡ noted (decl.now.enabled && (is_kind key.kind decl.now.kind && is_under key owner.now decl.now)) spot
        (spots_at lists.old key)) }
    ensures others { KeepsOthers spot.uid lists.old lists.new }
{
    if !decl.enabled {
        return Ok(());
    }
    let groups = groups_of(alloc, decl)?;
    note_groups(
        alloc,
        lists,
        decl.kind,
        &owner.name,
        groups.as_slice(),
        spot,
    )
}

/// Adds the spots of the enabled components of a kind.
fn note_kind(alloc: Global, lists: &mut Lists, kind: Kind, owner: &Package) -> Result<(), NoMemory>
    requires { length owner.now.decls ≤ 256 }
    ensures noted { OnOk result
        ((key : Key) → spots_at lists.new key
        ≡ spots_at lists.old key ++ (if is_kind key.kind kind then spots_of_package key owner.now else [])) }
    ensures others { KeepsOthers owner.now.uid lists.old lists.new }
{
    let decls = owner.decls.as_slice();
    let mut place: u32 = 0;
    for (position, decl) in decls.iter().enumerate() {
        if is_kind(kind, decl.kind) {
            let spot = Spot {
                uid: owner.uid,
                position,
                place,
            };
            note_enabled(alloc, lists, owner, decl, spot)?;
            place += 1;
        }
    }
    Ok(())
}

/// The two kinds are the same.
fn is_kind(kind: Kind, other: Kind) -> bool
    ensures { result ≡ is_kind kind other }
{
    kind == other
}

/// Adds the spots of the enabled components of a package.
pub(crate) fn note_package(
    alloc: Global,
    lists: &mut Lists,
    owner: &Package,
) -> Result<(), NoMemory>
    requires { length owner.now.decls ≤ 256 }
    ensures noted { OnOk result
        ((key : Key) → spots_at lists.new key ≡ spots_at lists.old key ++ spots_of_package key owner.now) }
    ensures others { KeepsOthers owner.now.uid lists.old lists.new }
{
    note_kind(alloc, lists, Kind::Activity, owner)?;
    note_kind(alloc, lists, Kind::Service, owner)?;
    note_kind(alloc, lists, Kind::Receiver, owner)?;
    Ok(())
}

/// Removes the spots of a uid from all lists, and removes the lists that are then empty. Takes no memory.
pub(crate) fn drop_spots(lists: &mut Lists, uid: u32)
    ensures { (key : Key) → spots_at lists.new key ≡ spots_without (spots_at lists.old key) uid }
{
    lists.retain(|_key, spots| keep_others(spots, uid));
}

/// Removes the spots of a uid from a list, and returns whether some are left. Takes no memory.
fn keep_others(spots: &mut Vec<Spot>, uid: u32) -> bool
    ensures spots { spots.new.items ≡ spots_without spots.old.items uid }
    ensures some { result ≡ not (is_empty spots.new.items) }
{
    spots.retain(|spot| spot.uid != uid);
    !spots.is_empty()
}
