//! The queries of a manifest.
ghost use Rattle.std.specs.Prelude.{◌≡◌, map, option_and_then, option_map};
ghost use Rattle.toml.specs.Data.{get};
ghost use Rattle.toml.specs.View.{view};
ghost use Rattle.am_types.specs.Reading.{Gives, GivesBy};
ghost use Rattle.am_manifest_queries.specs.Queries.{no_queries, queries_in, queries_table, signatures_at};

use crate::signature::signature_of;
use am_manifest_filters::{
    Position, ReadFault, at_most, entry_table, optional_values, read_each, texts_at, within_key,
};
use am_types::{List, Queries, Signature};
use am_uri::Form;
use std::alloc::Global;
use toml::Value;

/// The queried intents, at most 64.
#[tactic(auto, unfolding(crate::specs::Queries::signatures_at, crate::specs::Queries::signature_entry))]
fn signatures_at(alloc: Global, at: &str, table: &Value) -> Result<Vec<Signature>, ReadFault>
    ensures { GivesBy (λ signatures. signatures.items) result (signatures_at at.now (view table.now)) }
{
    let values = optional_values(alloc, at, "intent", table)?;
    at_most(alloc, 64, "list", values.len())?;
    read_each(alloc, values, |i, value| {
        let within = entry_table(alloc, at, "intent", i, value)?;
        signature_of(alloc, within.as_str(), value)
    })
}

/// The queries in their table.
#[tactic(auto, unfolding(crate::specs::Queries::queries_table))]
fn queries_table(alloc: Global, at: &str, table: &Value) -> Result<Queries, ReadFault>
    ensures { Gives result (queries_table at.now (view table.now)) }
{
    let names = texts_at(alloc, Form::PackageName, at, "package", 64, table)?;
    let signatures = signatures_at(alloc, at, table)?;
    Ok(Queries {
        names: List::new(names),
        signatures: List::new(signatures),
    })
}

/// What a manifest without queries asks for: nothing.
fn no_queries(alloc: Global) -> Queries
    ensures { result ≡ no_queries }
{
    Queries {
        names: List::new(Vec::new(alloc)),
        signatures: List::new(Vec::new(alloc)),
    }
}

/// The queries that a manifest has at its key, if it has any.
#[tactic(auto, unfolding(crate::specs::Queries::queries_in))]
pub fn queries_in(alloc: Global, at: &str, queries: Option<&Value>) -> Result<Queries, ReadFault>
    ensures { Gives result (queries_in at.now (option_map (λ value. view value.now) queries.entry)) }
{
    let Some(value) = queries else {
        return Ok(no_queries(alloc));
    };
    if !value.is_table() {
        let position = Position::key(at, "queries");
        return Err(position.wrong_kind(alloc));
    }
    let within = within_key(alloc, at, "queries")?;
    queries_table(alloc, within.as_str(), value)
}
