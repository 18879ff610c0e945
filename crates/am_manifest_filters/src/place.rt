//! Places in a document, and the faults that name them.
ghost use Rattle.std.specs.Prelude.{◌≡◌, IfOk, None, Some, codes};
ghost use Rattle.am_types.specs.declared.manifest.ManifestFault.TheVariants.{WrongKind, OverLimit};
ghost use Rattle.am_types.specs.Reading.{IsFault};
ghost use Rattle.am_manifest_filters.specs.Texts.{key_place, entry_place, place_of, within_entry, within_key};

use crate::ReadFault;
use am_types::{ManifestFault, Text, Unmade};
use std::alloc::{AllocError, Global};

/// A key of a table, or an entry of the array at that key: what a fault's place names.
#[derive(Clone, Copy)]
pub struct Position<'a> {
    /// What the places of the table's keys begin with.
    pub at: &'a str,
    /// The key, as it is written.
    pub key: &'a str,
    /// The index of the entry in its array, from 0; none for the key itself.
    pub index: Option<usize>,
}

impl<'a> Position<'a> {
    /// The key itself.
    pub fn key(at: &'a str, key: &'a str) -> Position<'a>
        ensures { result ≡ record { at = at.entry; key = key.entry; index = None } }
    {
        Position {
            at,
            key,
            index: None,
        }
    }

    /// An entry of the array at a key.
    pub fn entry(at: &'a str, key: &'a str, i: usize) -> Position<'a>
        ensures { result ≡ record { at = at.entry; key = key.entry; index = Some i } }
    {
        Position {
            at,
            key,
            index: Some(i),
        }
    }

    /// The place as it is printed, such as `activity[0].name`.
    ///
    /// # Errors
    ///
    /// Only if memory runs out.
    pub fn place(&self, alloc: Global) -> Result<Text, AllocError>
        ensures { IfOk result (λ place. place ≡ place_of self.now) }
    {
        match self.index {
            None => key_place(alloc, self.at, self.key),
            Some(i) => entry_place(alloc, self.at, self.key, i),
        }
    }

    /// The fault that the value there is of another kind or out of its range, or that memory ran out while its place
    /// was written.
    pub fn wrong_kind(&self, alloc: Global) -> ReadFault
        ensures { IsFault result (WrongKind (place_of self.now)) }
    {
        match self.place(alloc) {
            Ok(place) => Unmade::Fault(ManifestFault::WrongKind(place)),
            Err(_) => Unmade::NoMemory,
        }
    }
}

fn key_place(alloc: Global, at: &str, key: &str) -> Result<Text, AllocError>
    ensures { IfOk result (λ place. place ≡ key_place at.now key.now) }
{
    Ok(Text::new(format!(in alloc; "{at}{key}")?))
}

fn entry_place(alloc: Global, at: &str, key: &str, i: usize) -> Result<Text, AllocError>
    ensures { IfOk result (λ place. place ≡ entry_place at.now key.now i) }
{
    Ok(Text::new(format!(in alloc; "{at}{key}[{i}]")?))
}

/// What the places in a table that is this entry of an array begin with, such as `activity[0].`.
pub fn within(alloc: Global, at: &str, key: &str, i: usize) -> Result<Text, AllocError>
    ensures { IfOk result (λ text. text ≡ within_entry at.now key.now i) }
{
    Ok(Text::new(format!(in alloc; "{at}{key}[{i}].")?))
}

/// What the places in the table at this key begin with, such as `manifest.`.
///
/// # Errors
///
/// Only if memory runs out.
pub fn within_key(alloc: Global, at: &str, key: &str) -> Result<Text, AllocError>
    ensures { IfOk result (λ text. text ≡ within_key at.now key.now) }
{
    Ok(Text::new(format!(in alloc; "{at}{key}.")?))
}

/// The fault that there is more of something than the limit with this name, or that memory ran out.
pub fn over_limit(alloc: Global, name: &str) -> ReadFault
    ensures { IsFault result (OverLimit name.now) }
{
    match String::from_str(alloc, name) {
        Ok(name) => Unmade::Fault(ManifestFault::OverLimit(Text::new(name))),
        Err(_) => Unmade::NoMemory,
    }
}
