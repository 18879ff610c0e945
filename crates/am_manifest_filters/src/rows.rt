//! The data rows of a filter.
ghost use Rattle.std.specs.Prelude.{◌≡◌, codes, map};
ghost use Rattle.toml.specs.View.{view};
ghost use Rattle.am_types.specs.Reading.{Gives, GivesBy};
ghost use Rattle.am_manifest_filters.specs.Texts.{key_place};
ghost use Rattle.am_manifest_filters.specs.Tables.{only_keys};
ghost use Rattle.am_manifest_filters.specs.Rows.{authority_at, is_row_key, mime_at, mime_in, paths_at, pattern_at, pattern_in, port_at, row_entry, row_of, rows_at, scheme_at, scheme_in};

use crate::ReadFault;
use crate::place::{Position, over_limit};
use crate::tables::{at_most, entry_table, only_keys, optional_text, optional_values, read_each};
use am_filter::{DataRow, DataRows, Paths, merge_rows};
use am_types::{Authority, Glob, ManifestFault, Mime, MimeFault, Text, Unmade};
use am_uri::{Form, is_scheme, parse_mime};
use std::alloc::Global;
use toml::Value;

/// The scheme, unless it isn't valid.
#[tactic(auto, unfolding(crate::specs::Rows::scheme_in))]
fn scheme_in(alloc: Global, at: &str, text: Option<Text>) -> Result<Option<Text>, ReadFault>
    ensures { Gives result (scheme_in (key_place at.now (codes "scheme")) text) }
{
    let Some(text) = text else {
        return Ok(None);
    };
    if !is_scheme(text.as_str()) {
        let position = Position::key(at, "scheme");
        return Err(Unmade::Fault(ManifestFault::BadUri(position.place(alloc)?)));
    }
    Ok(Some(text))
}

/// The scheme of a row.
///
/// # Errors
///
/// If the value isn't a text or is an empty one, if it is too long, and then if it isn't a scheme.
#[tactic(auto, unfolding(crate::specs::Rows::scheme_at))]
pub fn scheme_at(alloc: Global, at: &str, table: &Value) -> Result<Option<Text>, ReadFault>
    ensures { Gives result (scheme_at at.now (view table.now)) }
{
    let text = optional_text(alloc, Form::Filled, at, "scheme", table)?;
    scheme_in(alloc, at, text)
}

/// The type that a text is, unless it isn't a valid one.
#[tactic(auto, unfolding(crate::specs::Rows::mime_in, crate::specs::Rows::mime_or))]
fn mime_in(alloc: Global, at: &str, text: Option<Text>) -> Result<Option<Mime>, ReadFault>
    ensures { Gives result (mime_in (key_place at.now (codes "mimeType")) text) }
{
    let Some(text) = text else {
        return Ok(None);
    };
    match parse_mime(alloc, &text) {
        Ok(mime) => Ok(Some(mime)),
        Err(MimeFault::NoMemory) => Err(Unmade::NoMemory),
        Err(MimeFault::NoSlash | MimeFault::EmptyPart | MimeFault::BadCharacter) => {
            let position = Position::key(at, "mimeType");
            Err(Unmade::Fault(ManifestFault::BadMime(position.place(alloc)?)))
        }
    }
}

/// The type of a row.
///
/// # Errors
///
/// If the value isn't a text or is an empty one, if it is too long, and then if it isn't a type.
#[tactic(auto, unfolding(crate::specs::Rows::mime_at))]
pub fn mime_at(alloc: Global, at: &str, table: &Value) -> Result<Option<Mime>, ReadFault>
    ensures { Gives result (mime_at at.now (view table.now)) }
{
    let text = optional_text(alloc, Form::Filled, at, "mimeType", table)?;
    mime_in(alloc, at, text)
}

/// The port of a row, from 0 to 99,999.
#[tactic(auto, unfolding(crate::specs::Rows::port_at, crate::specs::Rows::optional_port_in, crate::specs::Rows::port_in))]
fn port_at(alloc: Global, at: &str, table: &Value) -> Result<Option<u32>, ReadFault>
    ensures { Gives result (port_at at.now (view table.now)) }
{
    let Some(value) = table.get("port") else {
        return Ok(None);
    };
    let position = Position::key(at, "port");
    let Some(number) = value.as_integer() else {
        return Err(position.wrong_kind(alloc));
    };
    if number < 0 {
        return Err(position.wrong_kind(alloc));
    }
    if number > 99_999 {
        return Err(position.wrong_kind(alloc));
    }
    Ok(Some(number as u32))
}

/// The authority of a row: its host with its port. A port without a host is ignored.
#[tactic(auto, unfolding(crate::specs::Rows::authority_at))]
fn authority_at(alloc: Global, at: &str, table: &Value) -> Result<Option<Authority>, ReadFault>
    ensures { Gives result (authority_at at.now (view table.now)) }
{
    let host = optional_text(alloc, Form::Filled, at, "host", table)?;
    let port = port_at(alloc, at, table)?;
    match host {
        None => Ok(None),
        Some(host) => Ok(Some(Authority { host, port })),
    }
}

/// The pattern that a text is, which has at most 1,024 bytes.
#[tactic(auto, unfolding(crate::specs::Rows::pattern_in))]
fn pattern_in(alloc: Global, text: Option<Text>) -> Result<Option<Glob>, ReadFault>
    ensures { Gives result (pattern_in text) }
{
    let Some(text) = text else {
        return Ok(None);
    };
    match Glob::new(text) {
        Ok(glob) => Ok(Some(glob)),
        Err(_) => Err(over_limit(alloc, "text")),
    }
}

/// The pattern of a row.
#[tactic(auto, unfolding(crate::specs::Rows::pattern_at))]
fn pattern_at(alloc: Global, at: &str, table: &Value) -> Result<Option<Glob>, ReadFault>
    ensures { Gives result (pattern_at at.now (view table.now)) }
{
    let text = optional_text(alloc, Form::Filled, at, "pathPattern", table)?;
    pattern_in(alloc, text)
}

/// The path rules of a row.
#[tactic(auto, unfolding(crate::specs::Rows::paths_at))]
fn paths_at(alloc: Global, at: &str, table: &Value) -> Result<Paths, ReadFault>
    ensures { Gives result (paths_at at.now (view table.now)) }
{
    let literal = optional_text(alloc, Form::Filled, at, "path", table)?;
    let prefix = optional_text(alloc, Form::Filled, at, "pathPrefix", table)?;
    let suffix = optional_text(alloc, Form::Filled, at, "pathSuffix", table)?;
    let pattern = pattern_at(alloc, at, table)?;
    Ok(Paths {
        literal,
        prefix,
        suffix,
        pattern,
    })
}

/// The data row in a table.
#[tactic(auto, unfolding(crate::specs::Rows::row_of))]
fn row_of(alloc: Global, at: &str, table: &Value) -> Result<DataRow, ReadFault>
    ensures { Gives result (row_of at.now (view table.now)) }
{
    let scheme = scheme_at(alloc, at, table)?;
    let authority = authority_at(alloc, at, table)?;
    let paths = paths_at(alloc, at, table)?;
    let mime = mime_at(alloc, at, table)?;
    Ok(DataRow {
        scheme,
        authority,
        paths,
        mime,
    })
}

/// Whether a row may have the key.
fn is_row_key(key: &str) -> bool
    ensures { result ≡ is_row_key key.now }
{
    matches!(
        key,
        "scheme"
            | "host"
            | "port"
            | "path"
            | "pathPrefix"
            | "pathSuffix"
            | "pathPattern"
            | "mimeType"
    )
}

/// Refuses a key that a row may not have.
fn only_row_keys(alloc: Global, at: &str, value: &Value) -> Result<(), ReadFault>
    ensures { Gives result (only_keys is_row_key at.now (view value.now)) }
{
    only_keys(alloc, at, value, |key| is_row_key(key))
}

/// An entry of the data rows of a filter.
#[tactic(auto, unfolding(crate::specs::Rows::row_entry))]
fn row_entry(alloc: Global, at: &str, i: usize, value: &Value) -> Result<DataRow, ReadFault>
    ensures { Gives result (row_entry at.now i (view value.now)) }
{
    let within = entry_table(alloc, at, "data", i, value)?;
    only_row_keys(alloc, within.as_str(), value)?;
    row_of(alloc, within.as_str(), value)
}

/// The data rows of a filter, merged.
#[tactic(auto, unfolding(crate::specs::Rows::rows_at))]
pub fn rows_at(alloc: Global, at: &str, table: &Value) -> Result<DataRows, ReadFault>
    ensures { Gives result (rows_at at.now (view table.now)) }
{
    let values = optional_values(alloc, at, "data", table)?;
    at_most(alloc, 64, "list", values.len())?;
    let rows = read_each(alloc, values, |i, value| row_entry(alloc, at, i, value))?;
    Ok(merge_rows(alloc, rows)?)
}
