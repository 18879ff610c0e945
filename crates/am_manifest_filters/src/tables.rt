//! The values at the keys of a table. The places of its keys begin with `at`.
ghost use Rattle.std.specs.Prelude.{◌≡◌, ◌<◌, ℕ, Bool, IfOk, List, Result, Some, length, map};
ghost use Rattle.am_types.specs.declared.manifest.ManifestFault.{ManifestFault};
ghost use Rattle.toml.specs.Data.{Data, as_str};
ghost use Rattle.toml.specs.View.{table_view, view};
ghost use Rattle.am_types.specs.Reading.{Gives, GivesBy};
ghost use Rattle.am_manifest_filters.specs.Texts.{place_of, text_in};
ghost use Rattle.am_manifest_filters.specs.Tables.{required_text, optional_text, optional_truth, optional_values, at_most, each, entry_table, entry_text, only_keys, texts_at, unlisted};

use crate::ReadFault;
use crate::place::{Position, over_limit, within};
use am_types::{ManifestFault, Text, Unmade};
use am_uri::Form;
use std::alloc::{AllocError, Global};
use toml::{Table, Value};

/// The text of this form at a required key, of at most 1,024 bytes.
///
/// # Errors
///
/// If the key is absent, if its value isn't a text of the form, and then if it is too long.
#[tactic(auto, unfolding(crate::specs::Tables::required_text, crate::specs::Tables::required_in))]
pub fn required_text(
    alloc: Global,
    form: Form,
    at: &str,
    key: &str,
    table: &Value,
) -> Result<Text, ReadFault>
    ensures { Gives result (required_text form at.now key.now (view table.now)) }
{
    let position = Position::key(at, key);
    match table.get(key) {
        None => Err(Unmade::Fault(ManifestFault::Missing(position.place(alloc)?))),
        Some(value) => text_in(alloc, form, &position, value),
    }
}

/// The text of this form at an optional key, of at most 1,024 bytes.
///
/// # Errors
///
/// If the value isn't a text of the form, and then if it is too long.
#[tactic(auto, unfolding(crate::specs::Tables::optional_text, crate::specs::Tables::optional_text_in))]
pub fn optional_text(
    alloc: Global,
    form: Form,
    at: &str,
    key: &str,
    table: &Value,
) -> Result<Option<Text>, ReadFault>
    ensures { Gives result (optional_text form at.now key.now (view table.now)) }
{
    let Some(value) = table.get(key) else {
        return Ok(None);
    };
    let position = Position::key(at, key);
    let text = text_in(alloc, form, &position, value)?;
    Ok(Some(text))
}

/// The text that a value is.
#[tactic(auto, unfolding(crate::specs::Texts::text_in))]
fn text_in(alloc: Global, form: Form, position: &Position, value: &Value) -> Result<Text, ReadFault>
    ensures { Gives result (text_in form (place_of position.now) (as_str (view value.now))) }
{
    match value.as_str() {
        None => Err(position.wrong_kind(alloc)),
        Some(text) => fitting(alloc, form, position, text),
    }
}

/// The text, if it has the form and isn't too long.
#[tactic(auto, unfolding(crate::specs::Texts::text_in))]
fn fitting(alloc: Global, form: Form, position: &Position, text: &str) -> Result<Text, ReadFault>
    ensures { Gives result (text_in form (place_of position.now) (Some text.now)) }
{
    if !form.fits(text) {
        return Err(position.wrong_kind(alloc));
    }
    if text.len() > 1024 {
        return Err(over_limit(alloc, "text"));
    }
    Ok(Text::of(alloc, text)?)
}

/// The boolean at an optional key.
///
/// # Errors
///
/// If the value isn't a boolean.
#[tactic(auto, unfolding(crate::specs::Tables::optional_truth, crate::specs::Tables::optional_truth_in, crate::specs::Tables::truth_in))]
pub fn optional_truth(
    alloc: Global,
    at: &str,
    key: &str,
    table: &Value,
) -> Result<Option<bool>, ReadFault>
    ensures { Gives result (optional_truth at.now key.now (view table.now)) }
{
    let Some(value) = table.get(key) else {
        return Ok(None);
    };
    let position = Position::key(at, key);
    match value.as_bool() {
        None => Err(position.wrong_kind(alloc)),
        Some(truth) => Ok(Some(truth)),
    }
}

/// The values of the array at a key: none if the key is absent.
///
/// # Errors
///
/// If the value isn't an array.
#[tactic(auto, using(crate::proofs::Each::values_of_view), unfolding(crate::specs::Tables::optional_values, crate::specs::Tables::optional_values_in, crate::specs::Tables::values_in))]
pub fn optional_values<'a>(
    alloc: Global,
    at: &str,
    key: &str,
    table: &'a Value,
) -> Result<&'a [Value], ReadFault>
    ensures { GivesBy (λ values. map view values.now) result (optional_values at.now key.now (view table.now)) }
{
    let Some(value) = table.get(key) else {
        return Ok(&[]);
    };
    let position = Position::key(at, key);
    match value.as_array() {
        None => Err(position.wrong_kind(alloc)),
        Some(array) => Ok(array.as_slice()),
    }
}

/// Refuses more of something than its limit.
///
/// # Errors
///
/// The fault that names the limit, if `count` is greater.
#[tactic(auto, unfolding(crate::specs::Tables::at_most))]
pub fn at_most(alloc: Global, limit: usize, name: &str, count: usize) -> Result<(), ReadFault>
    ensures { Gives result (at_most limit name.now count) }
{
    if count > limit {
        return Err(over_limit(alloc, name));
    }
    Ok(())
}

/// The least key that `is_known` rejects.
fn unlisted<F: Fn(&str) -> bool>(
    alloc: Global,
    table: &Table,
    is_known: F,
) -> Result<Option<Text>, AllocError>
    requires { F.IsAlwaysCallable is_known }
    ensures { (known : List ℕ → Bool)
        → ((key : _) (answer : _) → F.post is_known key answer → answer ≡ known key.now)
        → IfOk result (λ key. key ≡ unlisted known (table_view table.now)) }
{
    for key in table.keys() {
        let key = key.as_str();
        if !is_known(key) {
            return Ok(Some(Text::of(alloc, key)?));
        }
    }
    Ok(None)
}

/// Refuses a table with a key that `is_known` rejects.
///
/// # Errors
///
/// `LeftOut` with the place of the least such key by bytes.
#[tactic(auto, unfolding(crate::specs::Tables::only_keys, crate::specs::Tables::none_left_out))]
pub fn only_keys<F: Fn(&str) -> bool>(
    alloc: Global,
    at: &str,
    value: &Value,
    is_known: F,
) -> Result<(), ReadFault>
    requires { F.IsAlwaysCallable is_known }
    ensures { (known : List ℕ → Bool)
        → ((key : _) (answer : _) → F.post is_known key answer → answer ≡ known key.now)
        → Gives result (only_keys known at.now (view value.now)) }
{
    let Some(table) = value.as_table() else {
        return Ok(());
    };
    let Some(key) = unlisted(alloc, table, is_known)? else {
        return Ok(());
    };
    let position = Position::key(at, key.as_str());
    Err(Unmade::Fault(ManifestFault::LeftOut(position.place(alloc)?)))
}

/// The result of `read` for each value; `read` also gets the number of values before it.
///
/// # Errors
///
/// The first fault of the values in order.
pub fn read_each<T: Drop, F: Fn(usize, &Value) -> Result<T, ReadFault>>(
    alloc: Global,
    values: &[Value],
    read: F,
) -> Result<Vec<T>, ReadFault>
    requires { (i : ℕ) (value : _) → i < length values.now → F.pre read i value }
    ensures { (what : ℕ → Data → Result T ManifestFault)
        → ((i : ℕ) (value : _) (said : _) → F.post read i value said → Gives said (what i (view value.now)))
        → GivesBy (λ items. items.items) result (each what 0 (map view values.now)) }
{
    let mut items = Vec::new(alloc);
    for (i, value) in values.iter().enumerate() {
        let item = read(i, value)?;
        items.push(item)?;
    }
    Ok(items)
}

/// What the places in an entry of an array, which must be a table, begin with. Entries count from 0.
///
/// # Errors
///
/// If the value isn't a table.
#[tactic(auto, unfolding(crate::specs::Tables::entry_table))]
pub fn entry_table(
    alloc: Global,
    at: &str,
    key: &str,
    i: usize,
    value: &Value,
) -> Result<Text, ReadFault>
    ensures { Gives result (entry_table at.now key.now i (view value.now)) }
{
    if !value.is_table() {
        let position = Position::entry(at, key, i);
        return Err(position.wrong_kind(alloc));
    }
    Ok(within(alloc, at, key, i)?)
}

/// An entry of an array that is a text of the form.
#[tactic(auto, unfolding(crate::specs::Tables::entry_text))]
fn entry_text(
    alloc: Global,
    form: Form,
    at: &str,
    key: &str,
    i: usize,
    value: &Value,
) -> Result<Text, ReadFault>
    ensures { Gives result (entry_text form at.now key.now i (view value.now)) }
{
    let position = Position::entry(at, key, i);
    text_in(alloc, form, &position, value)
}

/// Each value as a text of the form.
fn each_text(
    alloc: Global,
    form: Form,
    at: &str,
    key: &str,
    values: &[Value],
) -> Result<Vec<Text>, ReadFault>
    ensures { GivesBy (λ texts. texts.items) result (each (entry_text form at.now key.now) 0 (map view values.now)) }
{
    read_each(alloc, values, |i, value| {
        entry_text(alloc, form, at, key, i, value)
    })
}

/// The texts of the array at a key, which has at most `limit`; each is of the form and has at most 1,024 bytes.
///
/// # Errors
///
/// If the value isn't an array, then if it is too long, and then the first fault of its entries in order.
#[tactic(auto, unfolding(crate::specs::Tables::texts_at))]
pub fn texts_at(
    alloc: Global,
    form: Form,
    at: &str,
    key: &str,
    limit: usize,
    table: &Value,
) -> Result<Vec<Text>, ReadFault>
    ensures { GivesBy (λ texts. texts.items) result (texts_at form at.now key.now limit (view table.now)) }
{
    let values = optional_values(alloc, at, key, table)?;
    at_most(alloc, limit, "list", values.len())?;
    each_text(alloc, form, at, key, values)
}
