//! The fields of a JSON object.
ghost use Rattle.std.specs.Prelude.{◌≡◌, map, option_map};
ghost use Rattle.serde_json.specs.View.{view, members_view};
ghost use Rattle.am_model.specs.Texts.{lists};
ghost use Rattle.am_types.specs.Reading.{Gives, GivesBy};
ghost use Rattle.am_wire_fields.specs.Fields.{field, only_fields, optional_truth, required, required_truth, unlisted};

use crate::naming::wrong_kind;
use crate::{Unread, WireFault};
use am_types::{Text, Unmade};
use serde_json::{Map, Value};
use std::alloc::Global;

/// The value of a field that is present and isn't null. None if the value isn't an object.
#[tactic(auto, unfolding(crate::specs::Fields::field))]
pub fn field<'v>(name: &str, value: &'v Value) -> Option<&'v Value>
    ensures { option_map (λ found. view found.now) result ≡ field name.now (view value.now) }
{
    match value.get(name) {
        Some(Value::Null) => None,
        found => found,
    }
}

/// Whether the text is one of these.
pub fn is_listed(texts: &[&str], text: &str) -> bool
    ensures { result ≡ lists (map (λ listed. listed.now) texts.now) text.now }
{
    texts.iter().any(|listed| *listed == text)
}

/// The least key that isn't one of these fields.
fn unlisted<'m>(fields: &[&str], members: &'m Map<String, Value>) -> Option<&'m str>
    ensures { option_map (λ key. key.now) result
        ≡ unlisted (map (λ listed. listed.now) fields.now) (members_view members.now.entries) }
{
    for key in members.keys() {
        let key = key.as_str();
        if !is_listed(fields, key) {
            return Some(key);
        }
    }
    None
}

/// Refuses a value that isn't an object with only these fields. `name` is what a fault calls the value.
///
/// # Errors
///
/// If the value isn't an object, and then if it has a key that isn't one of the fields: the least such key by bytes,
/// also if its value is null.
#[tactic(auto, unfolding(crate::specs::Fields::only_fields, crate::specs::Fields::only_fields_in, crate::specs::Fields::none_unknown))]
pub fn only_fields(alloc: Global, name: &str, fields: &[&str], value: &Value) -> Result<(), Unread>
    ensures { Gives result (only_fields name.now (map (λ listed. listed.now) fields.now) (view value.now)) }
{
    let Some(members) = value.as_object() else {
        return Err(wrong_kind(alloc, name));
    };
    match unlisted(fields, members) {
        None => Ok(()),
        Some(key) => Err(Unmade::Fault(WireFault::UnknownField(Text::of(alloc, key)?))),
    }
}

/// The value of a required field.
///
/// # Errors
///
/// If the field is absent or null.
#[tactic(auto, unfolding(crate::specs::Fields::required, crate::specs::Fields::present))]
pub fn required<'v>(alloc: Global, name: &str, object: &'v Value) -> Result<&'v Value, Unread>
    ensures { GivesBy (λ value. view value.now) result (required name.now (view object.now)) }
{
    match field(name, object) {
        None => Err(Unmade::Fault(WireFault::Missing(Text::of(alloc, name)?))),
        Some(value) => Ok(value),
    }
}

/// The boolean in a required field.
///
/// # Errors
///
/// If the field is absent or null, and then if its value isn't a boolean.
#[tactic(auto, unfolding(crate::specs::Fields::required_truth, crate::specs::Fields::truth_in, crate::specs::Fields::of_kind))]
pub fn required_truth(alloc: Global, name: &str, object: &Value) -> Result<bool, Unread>
    ensures { Gives result (required_truth name.now (view object.now)) }
{
    let value = required(alloc, name, object)?;
    value.as_bool().ok_or_else(|| wrong_kind(alloc, name))
}

/// The boolean in a field: false if the field is absent or null.
///
/// # Errors
///
/// If the field's value isn't a boolean.
#[tactic(auto, unfolding(crate::specs::Fields::optional_truth, crate::specs::Fields::truth_or_false, crate::specs::Fields::truth_in, crate::specs::Fields::of_kind))]
pub fn optional_truth(alloc: Global, name: &str, object: &Value) -> Result<bool, Unread>
    ensures { Gives result (optional_truth name.now (view object.now)) }
{
    match field(name, object) {
        None => Ok(false),
        Some(value) => value.as_bool().ok_or_else(|| wrong_kind(alloc, name)),
    }
}
