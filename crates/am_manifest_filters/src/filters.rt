//! The filters of a component.
ghost use Rattle.std.specs.Prelude.{◌≡◌, IfOk, filter, map};
ghost use Rattle.toml.specs.View.{view};
ghost use Rattle.am_types.specs.Reading.{Gives, GivesBy};
ghost use Rattle.am_manifest_filters.specs.Tables.{each};
ghost use Rattle.am_manifest_filters.specs.Filters.{priority_at, sorted_at, filter_of, filter_entry, has_action, filters_at};

use crate::ReadFault;
use crate::place::Position;
use crate::rows::rows_at;
use crate::tables::{at_most, entry_table, optional_values, read_each, texts_at};
use am_types::{Filter, List, ManifestFault, Text, Unmade};
use am_uri::{Form, sorted};
use std::alloc::{AllocError, Global};
use toml::Value;

/// The filters of a component, as its table lists them.
#[derive(Drop)]
pub struct Filters {
    /// Whether its table lists any, including ones that aren't kept.
    pub written: bool,
    /// The filters that list an action, in the order read.
    pub kept: List<Filter>,
}

/// The priority of a filter: 0 if none is given.
#[tactic(auto, unfolding(crate::specs::Filters::priority_at, crate::specs::Filters::optional_priority_in, crate::specs::Filters::priority_in))]
fn priority_at(alloc: Global, at: &str, table: &Value) -> Result<i32, ReadFault>
    ensures { Gives result (priority_at at.now (view table.now)) }
{
    let Some(value) = table.get("priority") else {
        return Ok(0);
    };
    let Some(number) = value.as_integer() else {
        let position = Position::key(at, "priority");
        return Err(position.wrong_kind(alloc));
    };
    if number < -2_147_483_648 {
        return Err(Unmade::Fault(ManifestFault::BadPriority));
    }
    if number > 2_147_483_647 {
        return Err(Unmade::Fault(ManifestFault::BadPriority));
    }
    Ok(number as i32)
}

/// A list of texts of a filter, sorted.
#[tactic(auto, unfolding(crate::specs::Filters::sorted_at))]
fn sorted_at(alloc: Global, at: &str, key: &str, table: &Value) -> Result<List<Text>, ReadFault>
    ensures { Gives result (sorted_at at.now key.now (view table.now)) }
{
    let texts = texts_at(alloc, Form::Filled, at, key, 64, table)?;
    Ok(sorted(alloc, texts)?)
}

/// The filter in a table.
#[tactic(auto, unfolding(crate::specs::Filters::filter_of))]
fn filter_of(alloc: Global, at: &str, table: &Value) -> Result<Filter, ReadFault>
    ensures { Gives result (filter_of at.now (view table.now)) }
{
    let actions = sorted_at(alloc, at, "action", table)?;
    let categories = sorted_at(alloc, at, "category", table)?;
    let priority = priority_at(alloc, at, table)?;
    let rows = rows_at(alloc, at, table)?;
    Ok(rows.into_filter(actions, categories, priority))
}

/// An entry of the filters of a component.
#[tactic(auto, unfolding(crate::specs::Filters::filter_entry))]
fn filter_entry(alloc: Global, at: &str, i: usize, value: &Value) -> Result<Filter, ReadFault>
    ensures { Gives result (filter_entry at.now i (view value.now)) }
{
    let within = entry_table(alloc, at, "intent-filter", i, value)?;
    filter_of(alloc, within.as_str(), value)
}

/// Each value as a filter.
fn each_filter(alloc: Global, at: &str, values: &[Value]) -> Result<Vec<Filter>, ReadFault>
    ensures { GivesBy (λ filters. filters.items) result (each (filter_entry at.now) 0 (map view values.now)) }
{
    read_each(alloc, values, |i, value| filter_entry(alloc, at, i, value))
}

fn has_action(filter: &Filter) -> bool
    ensures { result ≡ has_action filter.now }
{
    !filter.actions.as_slice().is_empty()
}

/// The filters that list an action.
fn with_actions(alloc: Global, filters: Vec<Filter>) -> Result<Vec<Filter>, AllocError>
    ensures { IfOk result (λ kept. kept.items ≡ filter has_action filters.items) }
{
    filters.into_iter().filter(|f| has_action(f)).collect(alloc)
}

/// The filters of a component: at most 32, each with at most 64 actions, categories and data rows.
///
/// # Errors
///
/// The first fault found, with its place.
#[tactic(auto, unfolding(crate::specs::Filters::filters_at))]
pub fn filters_at(alloc: Global, at: &str, table: &Value) -> Result<Filters, ReadFault>
    ensures { Gives result (filters_at at.now (view table.now)) }
{
    let values = optional_values(alloc, at, "intent-filter", table)?;
    at_most(alloc, 32, "filters", values.len())?;
    let filters = each_filter(alloc, at, values)?;
    let kept = with_actions(alloc, filters)?;
    Ok(Filters {
        written: !values.is_empty(),
        kept: List::new(kept),
    })
}
