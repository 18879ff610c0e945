//! Extras: an object of texts, signed whole numbers and booleans.
ghost use Rattle.std.specs.Prelude.{◌≡◌, Some};
ghost use Rattle.serde_json.specs.View.{view, members_view};
ghost use Rattle.am_types.specs.Reading.{Gives, GivesBy};
ghost use Rattle.am_wire_intents.specs.Extras.{each_named, extra_in, extras_in, few_extras, named_in, optional_extras, short};

use am_types::{Extra, List, Named, Text};
use am_wire_fields::{Unread, field, text_within, too_long, wrong_kind};
use serde_json::{Map, Value};
use std::alloc::Global;

/// A text among the extras, or one of their keys: at most 1,024 bytes.
#[tactic(auto, unfolding(crate::specs::Extras::short))]
fn short(alloc: Global, text: &str) -> Result<Text, Unread>
    ensures { Gives result (short text.now) }
{
    text_within(alloc, 1024, "extras", text)
}

/// The extra in a value.
#[tactic(auto, unfolding(crate::specs::Extras::extra_in, crate::specs::Extras::whole_extra))]
fn extra_in(alloc: Global, value: &Value) -> Result<Extra, Unread>
    ensures { Gives result (extra_in (view value.now)) }
{
    match value {
        Value::Bool(truth) => Ok(Extra::Truth(*truth)),
        Value::Number(number) => match number.as_i64() {
            None => Err(wrong_kind(alloc, "extras")),
            Some(whole) => Ok(Extra::Whole(whole)),
        },
        Value::String(text) => {
            let word = short(alloc, text.as_str())?;
            Ok(Extra::Word(word))
        }
        Value::Null | Value::Array(_) | Value::Object(_) => Err(wrong_kind(alloc, "extras")),
    }
}

/// An extra under its key.
#[tactic(auto, unfolding(crate::specs::Extras::named_in))]
fn named_in(alloc: Global, key: &str, value: &Value) -> Result<Named, Unread>
    ensures { Gives result (named_in key.now (view value.now)) }
{
    let value = extra_in(alloc, value)?;
    let key = short(alloc, key)?;
    Ok(Named { key, value })
}

/// Each member as an extra, by rising key.
fn each_named(alloc: Global, members: &Map<String, Value>) -> Result<Vec<Named>, Unread>
    ensures { GivesBy (λ extras. extras.items) result (each_named (members_view members.now.entries)) }
{
    let mut extras = Vec::new(alloc);
    for (key, value) in members.iter() {
        let extra = named_in(alloc, key.as_str(), value)?;
        extras.push(extra)?;
    }
    Ok(extras)
}

/// The members as extras, unless there are more than 64.
#[tactic(auto, using(crate::proofs::Entries::length_keys), unfolding(crate::specs::Extras::few_extras))]
fn few_extras(alloc: Global, members: &Map<String, Value>) -> Result<List<Named>, Unread>
    ensures { Gives result (few_extras (members_view members.now.entries)) }
{
    if members.len() > 64 {
        return Err(too_long(alloc, "extras"));
    }
    let extras = each_named(alloc, members)?;
    Ok(List::new(extras))
}

/// The extras in a value: an object of at most 64 texts, signed whole numbers of 64 bits and booleans. Its keys
/// and texts have at most 1,024 bytes each. The extras are ordered by rising key, each key once.
///
/// # Errors
///
/// If the value isn't an object, then if it has more than 64 members, and then the first fault of its members by
/// rising key: if the value isn't one of these or is too long, and then if the key is too long.
#[tactic(auto, unfolding(crate::specs::Extras::extras_in, crate::specs::Extras::extras_of))]
pub fn extras_in(alloc: Global, value: &Value) -> Result<List<Named>, Unread>
    ensures { Gives result (extras_in (view value.now)) }
{
    match value.as_object() {
        None => Err(wrong_kind(alloc, "extras")),
        Some(members) => few_extras(alloc, members),
    }
}

/// The extras in the field `extras`: none if it is absent or null.
///
/// # Errors
///
/// As for [`extras_in`].
#[tactic(auto, unfolding(crate::specs::Extras::optional_extras, crate::specs::Extras::extras_if_said))]
pub fn optional_extras(alloc: Global, object: &Value) -> Result<List<Named>, Unread>
    ensures { Gives result (optional_extras (view object.now)) }
{
    match field("extras", object) {
        None => Ok(List::new(Vec::new(alloc))),
        Some(value) => extras_in(alloc, value),
    }
}
