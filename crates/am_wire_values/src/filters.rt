//! Filters as values.
ghost use Rattle.std.specs.Prelude.{◌≡◌, ◌++◌, IfOk, OnOk, codes, map};
ghost use Rattle.serde_json.specs.View.{view, members_view};
ghost use Rattle.am_wire_values.specs.Fields.{put_given, some_listed};
ghost use Rattle.am_wire_values.specs.Filters.{authority_row, filter_data, path_row, row_of, rows_of};

use crate::as_value::{AsValue, one, put_shown, put_some};
use crate::fields::{Members, put_given, put_some_texts, some_listed, some_whole};
use am_types::{Authority, Filter, PathRule};
use serde_json::{Map, Value};
use std::alloc::{AllocError, Global};

/// A filter as a value, with a row for each scheme, authority, path and type. Empty lists and a
/// priority of 0 are left out.
impl AsValue for Filter {
    ghost as_data = { filter_data };

    #[tactic(auto, unfolding(crate::specs::Filters::filter_data))]
    fn value(&self, alloc: Global) -> Result<Value, AllocError> {
        let mut members = Map::new(alloc);
        put_shown(alloc, &mut members, "actions", &self.actions)?;
        put_some_texts(alloc, &mut members, "categories", &self.categories)?;
        put_rows(alloc, &mut members, self)?;
        let priority = i64::from(self.priority);
        put_some(alloc, &mut members, "priority", &some_whole(priority))?;
        Ok(Value::Object(members))
    }
}

/// Puts the rows, unless there are none.
fn put_rows(alloc: Global, members: &mut Members, filter: &Filter) -> Result<(), AllocError>
    ensures { OnOk result (members_view members.new.entries
        ≡ put_given (codes "data") (some_listed (rows_of filter.now)) (members_view members.old.entries)) }
{
    let rows = rows_of(alloc, filter)?;
    put_given(alloc, members, "data", some_listed(rows))
}

/// The rows of a filter.
#[tactic(auto, unfolding(crate::specs::Filters::rows_of))]
fn rows_of(alloc: Global, filter: &Filter) -> Result<Vec<Value>, AllocError>
    ensures { IfOk result (λ rows. map view rows.items ≡ rows_of filter.now) }
{
    let mut rows = Vec::new(alloc);
    add_keyed(alloc, &mut rows, "scheme", filter.schemes.as_slice())?;
    add(alloc, &mut rows, filter.authorities.as_slice())?;
    add(alloc, &mut rows, filter.paths.as_slice())?;
    add_keyed(alloc, &mut rows, "mimeType", filter.types.as_slice())?;
    Ok(rows)
}

/// Adds a row for each.
fn add<T: AsValue>(alloc: Global, rows: &mut Vec<Value>, shown: &[T]) -> Result<(), AllocError>
    ensures { OnOk result (map view rows.new.items ≡ map view rows.old.items ++ map T.as_data shown.now) }
{
    for one in shown {
        rows.push(one.value(alloc)?)?;
    }
    Ok(())
}

/// Adds a row for each, with the item under the key.
fn add_keyed<T: AsValue>(
    alloc: Global,
    rows: &mut Vec<Value>,
    key: &str,
    shown: &[T],
) -> Result<(), AllocError>
    ensures { OnOk result (map view rows.new.items ≡ map view rows.old.items
        ++ map (λ value. row_of key.now (T.as_data value)) shown.now) }
{
    for value in shown {
        rows.push(one(alloc, key, value)?)?;
    }
    Ok(())
}

/// The row of an authority.
impl AsValue for Authority {
    ghost as_data = { authority_row };

    fn value(&self, alloc: Global) -> Result<Value, AllocError> {
        let mut members = Map::new(alloc);
        put_shown(alloc, &mut members, "host", &self.host)?;
        put_some(alloc, &mut members, "port", &self.port)?;
        Ok(Value::Object(members))
    }
}

/// The row of a path rule.
impl AsValue for PathRule {
    ghost as_data = { path_row };

    fn value(&self, alloc: Global) -> Result<Value, AllocError> {
        match self {
            PathRule::Literal(path) => one(alloc, "path", path),
            PathRule::Prefix(start) => one(alloc, "pathPrefix", start),
            PathRule::Suffix(end) => one(alloc, "pathSuffix", end),
            PathRule::Pattern(glob) => one(alloc, "pathPattern", glob.text()),
        }
    }
}
