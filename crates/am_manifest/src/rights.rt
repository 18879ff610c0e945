//! The permissions granted to the packages of a device, and the hosts for which the packages are approved.
ghost use Rattle.std.specs.Prelude.{◌≡◌, ◌++◌, ◌<◌, ℕ, List as Items, IfOk, map, option_and_then, replicate, [], vec_len};
ghost use Rattle.toml.specs.Data.{as_str};
ghost use Rattle.toml.specs.View.{view};
ghost use Rattle.am_types.specs.Reading.{Gives, GivesBy};
ghost use Rattle.am_manifest.specs.Rights.{array_key, holder_at, limit_name, more_texts, place_among, right_entry, right_of, right_put, rights_from, rights_given, rights_in, rights_of, spelled, text_key, with_right, with_uids};
ghost use Rattle.am_manifest.specs.RightsHeld.{place_in, texts_in};

use am_manifest_filters::{
    Position, ReadFault, entry_table, optional_values, over_limit, required_text,
};
use am_types::{Grant, Link, List, ManifestFault, Package, RightKind, Text, Unmade};
use am_uri::Form;
use std::alloc::{AllocError, Global};
use std::collections::{BTreeMap, BTreeSet};
use std::mem;
use toml::Value;

/// A right of a package.
#[derive(Drop)]
pub struct Right {
    /// The place of the package among those of the device.
    pub holder: usize,
    pub text: Text,
}

/// What the packages of a device may do.
#[derive(Drop)]
pub struct Rights {
    pub grants: List<Grant>,
    pub links: List<Link>,
}

/// The texts to which each package of a device has a right.
type Held = Vec<BTreeSet<Text>>;

fn array_key(kind: RightKind) -> &'static str
    ensures { result.now ≡ array_key kind }
{
    match kind {
        RightKind::Permission => "grant",
        RightKind::Host => "link",
    }
}

fn text_key(kind: RightKind) -> &'static str
    ensures { result.now ≡ text_key kind }
{
    match kind {
        RightKind::Permission => "permission",
        RightKind::Host => "host",
    }
}

fn limit_name(kind: RightKind) -> &'static str
    ensures { result.now ≡ limit_name kind }
{
    match kind {
        RightKind::Permission => "grants",
        RightKind::Host => "links",
    }
}

/// The text in the form that is compared: a host in lower case (ASCII).
fn spelled(alloc: Global, kind: RightKind, text: Text) -> Result<Text, AllocError>
    ensures { IfOk result (λ spelling. spelling ≡ spelled kind text) }
{
    match kind {
        RightKind::Permission => Ok(text),
        RightKind::Host => Text::lowered(alloc, text.as_str()),
    }
}

/// The place of the package that a value names.
fn place_named(places: &BTreeMap<String, usize>, value: &Value) -> Option<usize>
    ensures { result ≡ option_and_then (place_in places.now) (as_str (view value.now)) }
{
    match value.as_str() {
        None => None,
        Some(name) => places.get(name).copied(),
    }
}

/// The place of the package that an entry names.
#[tactic(auto, unfolding(crate::specs::Rights::holder_at, crate::specs::Rights::holder_in, crate::specs::Rights::holder_or))]
fn holder_at(
    alloc: Global,
    places: &BTreeMap<String, usize>,
    at: &str,
    table: &Value,
) -> Result<usize, ReadFault>
    ensures { Gives result (holder_at (place_in places.now) at.now (view table.now)) }
{
    let position = Position::key(at, "package");
    let Some(value) = table.get("package") else {
        return Err(Unmade::Fault(ManifestFault::Missing(position.place(alloc)?)));
    };
    match place_named(places, value) {
        None => Err(position.wrong_kind(alloc)),
        Some(holder) => Ok(holder),
    }
}

/// The right in a table.
#[tactic(auto, unfolding(crate::specs::Rights::right_of))]
fn right_of(
    alloc: Global,
    places: &BTreeMap<String, usize>,
    kind: RightKind,
    at: &str,
    table: &Value,
) -> Result<Right, ReadFault>
    ensures { Gives result (right_of (place_in places.now) kind at.now (view table.now)) }
{
    let holder = holder_at(alloc, places, at, table)?;
    let text = required_text(alloc, Form::Filled, at, text_key(kind), table)?;
    let text = spelled(alloc, kind, text)?;
    Ok(Right { holder, text })
}

/// An entry of the rights.
#[tactic(auto, unfolding(crate::specs::Rights::right_entry))]
fn right_entry(
    alloc: Global,
    places: &BTreeMap<String, usize>,
    kind: RightKind,
    i: usize,
    value: &Value,
) -> Result<Right, ReadFault>
    ensures { Gives result (right_entry (place_in places.now) kind i (view value.now)) }
{
    let within = entry_table(alloc, "", array_key(kind), i, value)?;
    right_of(alloc, places, kind, within.as_str(), value)
}

/// Adds a text to those of a package, which may have 256.
#[tactic(auto, unfolding(crate::specs::Rights::more_texts))]
fn more_texts(
    alloc: Global,
    kind: RightKind,
    texts: BTreeSet<Text>,
    text: Text,
) -> Result<BTreeSet<Text>, ReadFault>
    ensures { GivesBy (λ all. all.keys) result (more_texts kind texts.keys text) }
{
    let mut texts = texts;
    if texts.contains(&text) {
        return Ok(texts);
    }
    if texts.len() > 255 {
        return Err(over_limit(alloc, limit_name(kind)));
    }
    texts.insert(text)?;
    Ok(texts)
}

/// Adds a right of a package of the device.
fn right_put(alloc: Global, kind: RightKind, held: Held, right: Right) -> Result<Held, ReadFault>
    requires { right.holder < vec_len held }
    ensures { GivesBy texts_in result (right_put kind (texts_in held) right) }
{
    let mut held = held;
    let texts = mem::replace(&mut held[right.holder], BTreeSet::new(alloc));
    let texts = more_texts(alloc, kind, texts, right.text)?;
    held[right.holder] = texts;
    Ok(held)
}

/// Adds a right. A right without a package changes nothing.
#[tactic(auto, unfolding(crate::specs::Rights::with_right))]
fn with_right(alloc: Global, kind: RightKind, held: Held, right: Right) -> Result<Held, ReadFault>
    ensures { GivesBy texts_in result (with_right kind (texts_in held) right) }
{
    if right.holder < held.len() {
        return right_put(alloc, kind, held, right);
    }
    Ok(held)
}

/// Adds the rights of the entries.
fn rights_from(
    alloc: Global,
    places: &BTreeMap<String, usize>,
    kind: RightKind,
    held: Held,
    values: &[Value],
) -> Result<Held, ReadFault>
    ensures { GivesBy texts_in result (rights_from (place_in places.now) kind (texts_in held) 0 (map view values.now)) }
{
    let mut held = held;
    for (i, value) in values.iter().enumerate() {
        let right = right_entry(alloc, places, kind, i, value)?;
        held = with_right(alloc, kind, held, right)?;
    }
    Ok(held)
}

/// The place of each package by its name.
fn places_of(alloc: Global, packages: &[Package]) -> Result<BTreeMap<String, usize>, AllocError>
    ensures { IfOk result (λ places. (name : Items ℕ) → place_in places name ≡ place_among packages.now 0 name) }
{
    let mut places = BTreeMap::new(alloc);
    let mut i = packages.len();
    while i > 0 {
        i -= 1;
        let name = String::from_str(alloc, packages[i].name.as_str())?;
        places.insert(name, i)?;
    }
    Ok(places)
}

/// No rights for this many packages.
fn no_rights(alloc: Global, count: usize) -> Result<Held, AllocError>
    ensures { IfOk result (λ held. texts_in held ≡ replicate count []) }
{
    let mut held = Vec::new(alloc);
    for _ in 0..count {
        held.push(BTreeSet::new(alloc))?;
    }
    Ok(held)
}

/// The rights of one kind, per package.
#[tactic(auto, unfolding(crate::specs::Rights::rights_of))]
fn rights_of(
    alloc: Global,
    kind: RightKind,
    packages: &[Package],
    table: &Value,
) -> Result<Held, ReadFault>
    ensures { GivesBy texts_in result (rights_of kind packages.now (view table.now)) }
{
    let values = optional_values(alloc, "", array_key(kind), table)?;
    let places = places_of(alloc, packages)?;
    let held = no_rights(alloc, packages.len())?;
    rights_from(alloc, &places, kind, held, values)
}

/// The rights of one kind, each with the uid of its package.
fn rights_given(
    alloc: Global,
    kind: RightKind,
    packages: &[Package],
    table: &Value,
) -> Result<Vec<(u32, Text)>, ReadFault>
    ensures { GivesBy (λ rights. rights.items) result (rights_given kind packages.now (view table.now)) }
{
    let held = rights_of(alloc, kind, packages, table)?;
    Ok(with_uids(alloc, packages, &held)?)
}

/// The permissions granted to the packages, and the hosts for which the packages are approved.
#[tactic(auto, unfolding(crate::specs::Rights::rights_in))]
pub fn rights_in(alloc: Global, packages: &[Package], table: &Value) -> Result<Rights, ReadFault>
    ensures { Gives result (rights_in packages.now (view table.now)) }
{
    let granted = rights_given(alloc, RightKind::Permission, packages, table)?;
    let approved = rights_given(alloc, RightKind::Host, packages, table)?;
    let grants = granted
        .into_iter()
        .map(|(uid, permission)| Grant { uid, permission });
    let links = approved.into_iter().map(|(uid, host)| Link { uid, host });
    Ok(Rights {
        grants: List::new(grants.collect(alloc)?),
        links: List::new(links.collect(alloc)?),
    })
}

/// Each text with the uid.
fn with_uid(
    rights: Vec<(u32, Text)>,
    uid: u32,
    texts: &BTreeSet<Text>,
) -> Result<Vec<(u32, Text)>, AllocError>
    ensures { IfOk result (λ all. all.items ≡ rights.items ++ map (λ text. (uid, text)) texts.now.keys) }
{
    let mut rights = rights;
    for text in texts {
        rights.push((uid, text.clone()?))?;
    }
    Ok(rights)
}

/// Each right with the uid of its package.
fn with_uids(
    alloc: Global,
    packages: &[Package],
    held: &[BTreeSet<Text>],
) -> Result<Vec<(u32, Text)>, AllocError>
    ensures { IfOk result (λ rights. rights.items ≡ with_uids packages.now (map (λ texts. texts.keys) held.now)) }
{
    let mut rights = Vec::new(alloc);
    for (i, package) in packages.iter().enumerate() {
        if i >= held.len() {
            break;
        }
        rights = with_uid(rights, package.uid, &held[i])?;
    }
    Ok(rights)
}
