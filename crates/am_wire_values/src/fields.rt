//! Members of an object, of which some may be absent.
ghost use Rattle.std.specs.Prelude.{◌≡◌, ◌++◌, ◌∷◌, [], IfOk, OnOk, map, option_map};
ghost use Rattle.serde_json.specs.Data.{boolean, string, put as with_member};
ghost use Rattle.serde_json.specs.View.{view, members_view};
ghost use Rattle.am_wire_values.specs.Fields.{listed, put_given, some_listed, some_texts, some_truth, some_whole, whole};
ghost use Rattle.am_wire_values.specs.Names.{names_set};

use crate::as_value::values;
use am_types::{List, Text};
use serde_json::{Map, Value, put};
use std::alloc::{AllocError, Global};

/// The members of an object that is being built.
pub(crate) type Members = Map<String, Value>;

/// Puts a value under a name, if there is one.
pub(crate) fn put_given(
    alloc: Global,
    members: &mut Members,
    name: &str,
    value: Option<Value>,
) -> Result<(), AllocError>
    ensures { OnOk result (members_view members.new.entries ≡ put_given name.now (option_map view value)
        (members_view members.old.entries)) }
{
    match value {
        None => Ok(()),
        Some(value) => put(members, alloc, name, value),
    }
}

/// Puts a word under a name.
pub(crate) fn put_word(
    alloc: Global,
    members: &mut Members,
    name: &str,
    word: &str,
) -> Result<(), AllocError>
    ensures { OnOk result (members_view members.new.entries ≡ with_member name.now (string word.now)
        (members_view members.old.entries)) }
{
    put(members, alloc, name, Value::try_from_str(alloc, word)?)
}

/// The number, unless it is 0.
pub(crate) fn some_whole(number: i64) -> Option<i64>
    ensures { option_map whole result ≡ some_whole number }
{
    if number.unsigned_abs() == 0 {
        None
    } else {
        Some(number)
    }
}

/// The boolean, unless it is false.
pub(crate) fn some_truth(truth: bool) -> Option<bool>
    ensures { option_map boolean result ≡ some_truth truth }
{
    if truth { Some(true) } else { None }
}

/// Puts texts under a name, unless there are none.
pub(crate) fn put_some_texts(
    alloc: Global,
    members: &mut Members,
    name: &str,
    texts: &List<Text>,
) -> Result<(), AllocError>
    ensures { OnOk result (members_view members.new.entries ≡ put_given name.now (some_texts texts.now)
        (members_view members.old.entries)) }
{
    let values = values(alloc, texts.as_slice())?;
    put_given(alloc, members, name, some_listed(values))
}

/// Values as an array.
pub(crate) fn listed(values: Vec<Value>) -> Value
    ensures { view result ≡ listed (map view values.items) }
{
    Value::Array(values)
}

/// Values as an array, unless there are none.
pub(crate) fn some_listed(values: Vec<Value>) -> Option<Value>
    ensures { option_map view result ≡ some_listed (map view values.items) }
{
    if values.is_empty() {
        None
    } else {
        Some(Value::Array(values))
    }
}

/// Adds a word as a value.
fn push_word(alloc: Global, values: &mut Vec<Value>, word: &str) -> Result<(), AllocError>
    ensures { OnOk result (map view values.new.items ≡ map view values.old.items ++ string word.now ∷ []) }
{
    Ok(values.push(Value::try_from_str(alloc, word)?)?)
}

/// The names of the flags that are set, each as a value.
pub(crate) fn names_set(alloc: Global, named: &[(bool, &str)]) -> Result<Vec<Value>, AllocError>
    ensures { IfOk result (λ values. map view values.items
        ≡ map string (names_set (map (λ n. (n.0, n.1.now)) named.now))) }
{
    let mut values = Vec::new(alloc);
    for (is_set, name) in named {
        if *is_set {
            push_word(alloc, &mut values, name)?;
        }
    }
    Ok(values)
}
