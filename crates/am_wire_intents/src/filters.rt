//! Filters.
ghost use Rattle.std.specs.Prelude.{◌≡◌, map};
ghost use Rattle.serde_json.specs.View.{view};
ghost use Rattle.am_types.specs.Reading.{Gives, GivesBy};
ghost use Rattle.am_wire_intents.specs.Filters.{actions_at, filter_in, priority_at, some_values};

use crate::intents::categories_of;
use crate::rows::rows_at;
use am_types::{Filter, List, Text};
use am_uri::{Form, sorted};
use am_wire_fields::{
    Unread, field, list_in, only_fields, or_drop, required, texts_in, wrong_kind,
};
use serde_json::Value;
use std::alloc::Global;

/// The values, unless there are none.
#[tactic(auto, using(crate::proofs::Entries::some_viewed))]
fn some_values<'v>(alloc: Global, values: &'v [Value]) -> Result<&'v [Value], Unread>
    ensures { GivesBy (λ kept. map view kept.now) result (some_values (map view values.now)) }
{
    if values.is_empty() {
        return Err(wrong_kind(alloc, "actions"));
    }
    Ok(values)
}

/// The actions of a filter, sorted by bytes, each once: at least one.
#[tactic(auto, unfolding(crate::specs::Filters::actions_at))]
fn actions_at(alloc: Global, filter: &Value) -> Result<List<Text>, Unread>
    ensures { Gives result (actions_at (view filter.now)) }
{
    let value = required(alloc, "actions", filter)?;
    let values = list_in(alloc, "actions", value)?;
    let some = some_values(alloc, values)?;
    let texts = texts_in(alloc, Form::Filled, "actions", some)?;
    Ok(sorted(alloc, texts)?)
}

/// The priority of a filter: a whole number of 32 bits, 0 if none is given.
#[tactic(auto, unfolding(crate::specs::Filters::priority_at, crate::specs::Filters::priority_if_said, crate::specs::Filters::priority_of))]
fn priority_at(alloc: Global, filter: &Value) -> Result<i32, Unread>
    ensures { Gives result (priority_at (view filter.now)) }
{
    let Some(value) = field("priority", filter) else {
        return Ok(0);
    };
    let Some(number) = value.as_i64() else {
        return Err(wrong_kind(alloc, "priority"));
    };
    if number < -2_147_483_648 {
        return Err(wrong_kind(alloc, "priority"));
    }
    if number > 2_147_483_647 {
        return Err(wrong_kind(alloc, "priority"));
    }
    Ok(number as i32)
}

/// The filter in a value: an object with the field `actions`, of one action or more, and optionally `categories`,
/// `data` (rows with the keys `scheme`, `host`, `port`, `path`, `pathPrefix`, `pathSuffix`, `pathPattern` and
/// `mimeType`) and `priority`. No text is empty. Texts have at most 1,024 bytes, and lists at most 64 entries. `name`
/// is what a fault calls the value.
///
/// # Errors
///
/// If the value isn't an object, then if it has another field, the least by bytes, and then the first fault of its
/// fields in the order above.
#[tactic(auto, unfolding(crate::specs::Filters::filter_in, crate::specs::Filters::filter_of))]
pub fn filter_in(alloc: Global, name: &str, value: &Value) -> Result<Filter, Unread>
    ensures { Gives result (filter_in name.now (view value.now)) }
{
    only_fields(
        alloc,
        name,
        &["actions", "categories", "data", "priority"],
        value,
    )?;
    let actions = actions_at(alloc, value)?;
    let categories = categories_of(alloc, Form::Filled, value)?;
    let rows = rows_at(alloc, value)?;
    let priority = or_drop!(priority_at(alloc, value), rows);
    Ok(rows.into_filter(actions, categories, priority))
}
