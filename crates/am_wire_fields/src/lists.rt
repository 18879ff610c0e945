//! Fields with lists of at most 64 entries. A null among the entries isn't an entry of the expected kind.
ghost use Rattle.std.specs.Prelude.{◌≡◌, map};
ghost use Rattle.serde_json.specs.View.{view};
ghost use Rattle.am_model.specs.Texts.{lists};
ghost use Rattle.am_types.specs.Reading.{Gives, GivesBy};
ghost use Rattle.am_wire_fields.specs.Lists.{few, list_in, optional_list, texts_in, word_in, words_in};

use crate::Unread;
use crate::fields::{field, is_listed};
use crate::naming::{too_long, wrong_kind};
use crate::texts::text_in;
use am_types::Text;
use am_uri::Form;
use serde_json::Value;
use std::alloc::Global;

/// The values, unless there are more than 64.
#[tactic(auto, using(crate::proofs::Each::length_view), unfolding(crate::specs::Lists::few))]
fn few<'v>(alloc: Global, name: &str, values: &'v [Value]) -> Result<&'v [Value], Unread>
    ensures { GivesBy (λ kept. map view kept.now) result (few name.now (map view values.now)) }
{
    if values.len() > 64 {
        return Err(too_long(alloc, name));
    }
    Ok(values)
}

/// The values of the array in a value, 64 at most. `name` is what a fault calls the value.
///
/// # Errors
///
/// If the value isn't an array, and then if it has more than 64 values.
#[tactic(auto, using(crate::proofs::Each::values_of_view), unfolding(crate::specs::Lists::list_in, crate::specs::Lists::list_of))]
pub fn list_in<'v>(alloc: Global, name: &str, value: &'v Value) -> Result<&'v [Value], Unread>
    ensures { GivesBy (λ values. map view values.now) result (list_in name.now (view value.now)) }
{
    match value.as_array() {
        None => Err(wrong_kind(alloc, name)),
        Some(array) => few(alloc, name, array.as_slice()),
    }
}

/// The values of the array in a field, 64 at most: none if the field is absent or null.
///
/// # Errors
///
/// If the field's value isn't an array, and then if that has more than 64 values.
#[tactic(auto, unfolding(crate::specs::Lists::optional_list, crate::specs::Lists::list_if_said))]
pub fn optional_list<'v>(
    alloc: Global,
    name: &str,
    object: &'v Value,
) -> Result<&'v [Value], Unread>
    ensures { GivesBy (λ values. map view values.now) result (optional_list name.now (view object.now)) }
{
    match field(name, object) {
        None => Ok(&[]),
        Some(value) => list_in(alloc, name, value),
    }
}

/// The texts in values, each of the form and of at most 1,024 bytes. `name` is what a fault calls each value.
///
/// # Errors
///
/// The first fault of the values in order: if one isn't a text of the form, and then if it is too long.
pub fn texts_in(
    alloc: Global,
    form: Form,
    name: &str,
    values: &[Value],
) -> Result<Vec<Text>, Unread>
    ensures { GivesBy (λ texts. texts.items) result (texts_in form name.now (map view values.now)) }
{
    let mut texts = Vec::new(alloc);
    for value in values {
        let text = text_in(alloc, form, 1024, name, value)?;
        texts.push(text)?;
    }
    Ok(texts)
}

/// The word in a value, which is one of these. `name` is what a fault calls the value.
///
/// # Errors
///
/// If the value isn't one of the words.
#[tactic(auto, unfolding(crate::specs::Lists::word_in, crate::specs::Lists::word_of))]
pub fn word_in<'v>(
    alloc: Global,
    words: &[&str],
    name: &str,
    value: &'v Value,
) -> Result<&'v str, Unread>
    ensures { GivesBy (λ word. word.now) result
        (word_in (map (λ listed. listed.now) words.now) name.now (view value.now)) }
{
    match value.as_str() {
        None => Err(wrong_kind(alloc, name)),
        Some(word) => if is_listed(words, word) {
            Ok(word)
        } else {
            Err(wrong_kind(alloc, name))
        },
    }
}

/// The words in values, each one of these. `name` is what a fault calls each value.
///
/// # Errors
///
/// If a value isn't one of the words.
pub fn words_in<'v>(
    alloc: Global,
    words: &[&str],
    name: &str,
    values: &'v [Value],
) -> Result<Vec<&'v str>, Unread>
    ensures { GivesBy (λ said. map (λ word. word.now) said.items) result
        (words_in (map (λ listed. listed.now) words.now) name.now (map view values.now)) }
{
    let mut said = Vec::new(alloc);
    for value in values {
        let word = word_in(alloc, words, name, value)?;
        said.push(word)?;
    }
    Ok(said)
}
