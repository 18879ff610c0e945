//! Intents as values.
ghost use Rattle.std.specs.Prelude.{◌≡◌, ◌++◌, IfOk, OnOk, codes};
ghost use Rattle.serde_json.specs.Data.{string};
ghost use Rattle.serde_json.specs.View.{view, members_view};
ghost use Rattle.am_wire_values.specs.Fields.{put_given};
ghost use Rattle.am_wire_values.specs.Intents.{component_data, extra_data, extras_data, intent_data, mime_data, some_extras, uri_data, with_extras};

use crate::as_value::{AsValue, object_with, put_shown, put_some};
use crate::fields::{Members, put_given, put_some_texts, some_listed};
use crate::names::flag_values;
use am_types::{Component, Extra, Intent, List, Mime, Named, Text, Uri};
use serde_json::{Map, Value, put};
use std::alloc::{AllocError, Global};

/// An intent as a value. What is absent, empty, or not set is left out.
#[tactic(auto, unfolding(crate::specs::Intents::intent_data))]
pub fn intent_value(alloc: Global, intent: &Intent) -> Result<Value, AllocError>
    ensures { IfOk result (λ value. view value ≡ intent_data intent.now) }
{
    let mut members = Map::new(alloc);
    put_some(alloc, &mut members, "action", &intent.action)?;
    put_some_texts(alloc, &mut members, "categories", &intent.categories)?;
    put_some(alloc, &mut members, "data", &intent.uri)?;
    put_some(alloc, &mut members, "type", &intent.mime)?;
    put_some(alloc, &mut members, "component", &intent.component)?;
    put_some(alloc, &mut members, "identifier", &intent.identifier)?;
    put_some(alloc, &mut members, "package", &intent.package)?;
    put_some_extras(alloc, &mut members, &intent.extras)?;
    let flags = flag_values(alloc, intent.flags)?;
    put_given(alloc, &mut members, "flags", some_listed(flags))?;
    Ok(Value::Object(members))
}

impl AsValue for Intent {
    ghost as_data = { intent_data };

    fn value(&self, alloc: Global) -> Result<Value, AllocError> {
        intent_value(alloc, self)
    }
}

/// Puts extras, unless there are none.
pub(crate) fn put_some_extras(
    alloc: Global,
    members: &mut Members,
    extras: &List<Named>,
) -> Result<(), AllocError>
    ensures { OnOk result (members_view members.new.entries
        ≡ put_given (codes "extras") (some_extras extras.now) (members_view members.old.entries)) }
{
    if extras.as_slice().is_empty() {
        Ok(())
    } else {
        put(members, alloc, "extras", extras_value(alloc, extras)?)
    }
}

/// A URI, as it was written.
impl AsValue for Uri {
    ghost as_data = { uri_data };

    fn value(&self, alloc: Global) -> Result<Value, AllocError> {
        self.text.value(alloc)
    }
}

/// Two texts with a slash between them, as one.
fn slashed(alloc: Global, first: &Text, second: &Text) -> Result<Value, AllocError>
    ensures { IfOk result (λ value. view value ≡ string (first.now ++ codes "/" ++ second.now)) }
{
    let first = first.as_str();
    let second = second.as_str();
    Ok(Value::String(format!(in alloc; "{first}/{second}")?))
}

/// A MIME type: main/sub.
impl AsValue for Mime {
    ghost as_data = { mime_data };

    fn value(&self, alloc: Global) -> Result<Value, AllocError> {
        slashed(alloc, &self.main, &self.sub)
    }
}

/// A component: package/class.
impl AsValue for Component {
    ghost as_data = { component_data };

    fn value(&self, alloc: Global) -> Result<Value, AllocError> {
        slashed(alloc, &self.package, &self.class)
    }
}

/// Extras as an object: of those with the same key, the last.
pub fn extras_value(alloc: Global, extras: &List<Named>) -> Result<Value, AllocError>
    ensures { IfOk result (λ value. view value ≡ extras_data extras.now) }
{
    object_with!(
        alloc,
        |members| put_extras(alloc, &mut members, extras.as_slice())
    )
}

/// Puts extras under their keys.
fn put_extras(alloc: Global, members: &mut Members, extras: &[Named]) -> Result<(), AllocError>
    ensures { OnOk result (members_view members.new.entries
        ≡ with_extras extras.now (members_view members.old.entries)) }
{
    for named in extras {
        put_shown(alloc, members, named.key.as_str(), &named.value)?;
    }
    Ok(())
}

impl AsValue for Extra {
    ghost as_data = { extra_data };

    fn value(&self, alloc: Global) -> Result<Value, AllocError> {
        match self {
            Extra::Word(text) => text.value(alloc),
            Extra::Whole(number) => number.value(alloc),
            Extra::Truth(truth) => truth.value(alloc),
        }
    }
}
