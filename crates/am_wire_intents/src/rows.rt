//! The data rows of a filter.
ghost use Rattle.std.specs.Prelude.{Some, codes, map};
ghost use Rattle.serde_json.specs.Find.{as_str};
ghost use Rattle.serde_json.specs.View.{view};
ghost use Rattle.am_uri.specs.declared.text.Form.TheVariants.{Filled};
ghost use Rattle.am_wire_fields.specs.Fields.{only_fields};
ghost use Rattle.am_wire_fields.specs.Lists.{each};
ghost use Rattle.am_types.specs.Reading.{Gives, GivesBy};
ghost use Rattle.am_wire_fields.specs.Texts.{optional_text};
ghost use Rattle.am_wire_intents.specs.Filters.{authority_at, paths_at, port_at, row_fields, row_in, rows_at, scheme_at, scheme_of};

use crate::intents::optional_mime;
use am_filter::{DataRow, DataRows, Paths, merge_rows};
use am_types::{Authority, Glob, Text};
use am_uri::{Form, is_scheme};
use am_wire_fields::{
    Unread, field, if_said, only_fields, optional_list, optional_text, or_drop, text_within,
    wrong_kind,
};
use serde_json::Value;
use std::alloc::Global;

/// The scheme that a text is, of at most 1,024 bytes.
#[tactic(auto, unfolding(crate::specs::Filters::scheme_of))]
fn scheme_of(alloc: Global, text: &str) -> Result<Text, Unread>
    ensures { Gives result (scheme_of (Some text.now)) }
{
    if !is_scheme(text) {
        return Err(wrong_kind(alloc, "scheme"));
    }
    text_within(alloc, 1024, "scheme", text)
}

/// The scheme in a value.
#[tactic(auto, unfolding(crate::specs::Filters::scheme_of))]
fn scheme_in(alloc: Global, value: &Value) -> Result<Text, Unread>
    ensures { Gives result (scheme_of (as_str (view value.now))) }
{
    match value.as_str() {
        None => Err(wrong_kind(alloc, "scheme")),
        Some(text) => scheme_of(alloc, text),
    }
}

/// The scheme of a row.
#[tactic(auto, unfolding(crate::specs::Filters::scheme_at))]
fn scheme_at(alloc: Global, row: &Value) -> Result<Option<Text>, Unread>
    ensures { Gives result (scheme_at (view row.now)) }
{
    if_said!("scheme", row, |value| scheme_in(alloc, value))
}

/// The port of a row, from 0 to 99,999.
#[tactic(auto, unfolding(crate::specs::Filters::port_at, crate::specs::Filters::port_of))]
fn port_at(alloc: Global, row: &Value) -> Result<Option<u32>, Unread>
    ensures { Gives result (port_at (view row.now)) }
{
    let Some(value) = field("port", row) else {
        return Ok(None);
    };
    let Some(number) = value.as_u64() else {
        return Err(wrong_kind(alloc, "port"));
    };
    if number > 99_999 {
        return Err(wrong_kind(alloc, "port"));
    }
    Ok(Some(number as u32))
}

/// The authority of a row: its host with its port. A port without a host is ignored.
#[tactic(auto, unfolding(crate::specs::Filters::authority_at))]
fn authority_at(alloc: Global, row: &Value) -> Result<Option<Authority>, Unread>
    ensures { Gives result (authority_at (view row.now)) }
{
    let host = optional_text(alloc, Form::Filled, "host", row)?;
    let port = port_at(alloc, row)?;
    match host {
        None => Ok(None),
        Some(host) => Ok(Some(Authority { host, port })),
    }
}

/// The pattern of a row.
fn pattern_at(alloc: Global, row: &Value) -> Result<Option<Glob>, Unread>
    ensures { Gives result (optional_text Filled 1024 (codes "pathPattern") (view row.now)) }
{
    let Some(text) = optional_text(alloc, Form::Filled, "pathPattern", row)? else {
        return Ok(None);
    };
    match Glob::new(text) {
        Ok(glob) => Ok(Some(glob)),
        Err(_) => unreachable!(),
    }
}

/// The path rules of a row.
#[tactic(auto, unfolding(crate::specs::Filters::paths_at))]
fn paths_at(alloc: Global, row: &Value) -> Result<Paths, Unread>
    ensures { Gives result (paths_at (view row.now)) }
{
    let literal = optional_text(alloc, Form::Filled, "path", row)?;
    let prefix = optional_text(alloc, Form::Filled, "pathPrefix", row)?;
    let suffix = optional_text(alloc, Form::Filled, "pathSuffix", row)?;
    let pattern = pattern_at(alloc, row)?;
    Ok(Paths {
        literal,
        prefix,
        suffix,
        pattern,
    })
}

/// Refuses a value that isn't an object with only the keys of a row.
fn only_row_fields(alloc: Global, value: &Value) -> Result<(), Unread>
    ensures { Gives result (only_fields (codes "data") row_fields (view value.now)) }
{
    only_fields(
        alloc,
        "data",
        &[
            "scheme",
            "host",
            "port",
            "path",
            "pathPrefix",
            "pathSuffix",
            "pathPattern",
            "mimeType",
        ],
        value,
    )
}

/// An entry of `data`.
#[tactic(auto, unfolding(crate::specs::Filters::row_in, crate::specs::Filters::row_of))]
fn row_in(alloc: Global, row: &Value) -> Result<DataRow, Unread>
    ensures { Gives result (row_in (view row.now)) }
{
    only_row_fields(alloc, row)?;
    let scheme = scheme_at(alloc, row)?;
    let authority = authority_at(alloc, row)?;
    let paths = paths_at(alloc, row)?;
    let mime = or_drop!(optional_mime(alloc, Form::Filled, "mimeType", row), paths);
    Ok(DataRow {
        scheme,
        authority,
        paths,
        mime,
    })
}

/// Each value as a data row.
fn each_row(alloc: Global, values: &[Value]) -> Result<Vec<DataRow>, Unread>
    ensures { GivesBy (λ rows. rows.items) result (each row_in (map view values.now)) }
{
    let mut rows = Vec::new(alloc);
    for value in values {
        let row = row_in(alloc, value)?;
        rows.push(row)?;
    }
    Ok(rows)
}

/// The data rows of a filter, merged.
#[tactic(auto, unfolding(crate::specs::Filters::rows_at))]
pub fn rows_at(alloc: Global, filter: &Value) -> Result<DataRows, Unread>
    ensures { Gives result (rows_at (view filter.now)) }
{
    let values = optional_list(alloc, "data", filter)?;
    let rows = each_row(alloc, values)?;
    Ok(merge_rows(alloc, rows)?)
}
