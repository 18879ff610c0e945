//! An intent that a manifest's queries ask for.
ghost use Rattle.std.specs.Prelude.{◌≡◌};
ghost use Rattle.toml.specs.View.{view};
ghost use Rattle.am_types.specs.Reading.{Gives};
ghost use Rattle.am_manifest_filters.specs.Tables.{only_keys};
ghost use Rattle.am_manifest_queries.specs.Signatures.{data_of, is_signature_key, names_of, signature_of};

use am_manifest_filters::{
    ReadFault, mime_at, only_keys, optional_text, required_text, scheme_at, texts_at,
};
use am_types::{List, Mime, Signature, Text};
use am_uri::Form;
use std::alloc::Global;
use toml::Value;

/// The queried action and categories.
#[derive(Drop)]
pub struct Names {
    pub action: Text,
    pub categories: List<Text>,
}

/// The queried data.
#[derive(Drop)]
pub struct Data {
    pub scheme: Option<Text>,
    pub host: Option<Text>,
    pub mime: Option<Mime>,
}

/// The queried action and categories.
#[tactic(auto, unfolding(crate::specs::Signatures::names_of))]
fn names_of(alloc: Global, at: &str, table: &Value) -> Result<Names, ReadFault>
    ensures { Gives result (names_of at.now (view table.now)) }
{
    let action = required_text(alloc, Form::Filled, at, "action", table)?;
    let categories = texts_at(alloc, Form::Filled, at, "category", 64, table)?;
    Ok(Names {
        action,
        categories: List::new(categories),
    })
}

/// The queried data.
#[tactic(auto, unfolding(crate::specs::Signatures::data_of))]
fn data_of(alloc: Global, at: &str, table: &Value) -> Result<Data, ReadFault>
    ensures { Gives result (data_of at.now (view table.now)) }
{
    let scheme = scheme_at(alloc, at, table)?;
    let host = optional_text(alloc, Form::Filled, at, "host", table)?;
    let mime = mime_at(alloc, at, table)?;
    Ok(Data { scheme, host, mime })
}

/// Whether a queried intent may have the key.
fn is_signature_key(key: &str) -> bool
    ensures { result ≡ is_signature_key key.now }
{
    matches!(key, "action" | "category" | "scheme" | "host" | "mimeType")
}

/// Refuses a key that a queried intent may not have.
fn only_signature_keys(alloc: Global, at: &str, value: &Value) -> Result<(), ReadFault>
    ensures { Gives result (only_keys is_signature_key at.now (view value.now)) }
{
    only_keys(alloc, at, value, |key| is_signature_key(key))
}

/// The intent that a table queries: the table has no other keys, an action, at most 64 categories, and optionally a
/// scheme, a host and a type.
#[tactic(auto, unfolding(crate::specs::Signatures::signature_of))]
pub fn signature_of(alloc: Global, at: &str, table: &Value) -> Result<Signature, ReadFault>
    ensures { Gives result (signature_of at.now (view table.now)) }
{
    only_signature_keys(alloc, at, table)?;
    let names = names_of(alloc, at, table)?;
    let data = data_of(alloc, at, table)?;
    Ok(Signature {
        action: names.action,
        categories: names.categories,
        scheme: data.scheme,
        host: data.host,
        mime: data.mime,
    })
}
