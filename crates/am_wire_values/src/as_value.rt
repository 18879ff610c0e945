//! What is shown as a JSON value: alone, in an array, or under a name.
ghost use Rattle.std.specs.Prelude.{◌≡◌, IfOk, OnOk, map, option_map};
ghost use Rattle.serde_json.specs.Data.{boolean, put as with_member, string};
ghost use Rattle.serde_json.specs.View.{view, members_view};
ghost use Rattle.am_wire_values.specs.Fields.{listed, natural, or_null, put_given, whole};
ghost use Rattle.am_wire_values.specs.Requests.{with_one};

use crate::fields::{Members, listed};
use am_types::{List, Text};
use serde_json::{Map, Value, put};
use std::alloc::{AllocError, Global};

/// What is shown as a JSON value.
pub(crate) trait AsValue {
    ghost use Rattle.std.specs.Prelude.{◌≡◌, IfOk};
    ghost use Rattle.serde_json.specs.Data.{Data};
    ghost use Rattle.serde_json.specs.View.{view};

    ghost as_data: { Self → Data };

    /// The value.
    fn value(&self, alloc: Global) -> Result<Value, AllocError>
        ensures { IfOk result (λ value. view value ≡ as_data self.now) };
}

impl AsValue for bool {
    ghost as_data = { boolean };

    fn value(&self, _alloc: Global) -> Result<Value, AllocError> {
        Ok(Value::from(*self))
    }
}

impl AsValue for u32 {
    ghost as_data = { natural };

    fn value(&self, _alloc: Global) -> Result<Value, AllocError> {
        Ok(Value::from(*self))
    }
}

impl AsValue for u64 {
    ghost as_data = { natural };

    fn value(&self, _alloc: Global) -> Result<Value, AllocError> {
        Ok(Value::from(*self))
    }
}

impl AsValue for i64 {
    ghost as_data = { whole };

    fn value(&self, _alloc: Global) -> Result<Value, AllocError> {
        Ok(Value::from(*self))
    }
}

impl AsValue for Text {
    ghost as_data = { string };

    fn value(&self, alloc: Global) -> Result<Value, AllocError> {
        Value::try_from_str(alloc, self.as_str())
    }
}

/// The value, or `null` if there is none.
impl<T: AsValue> AsValue for Option<T> {
    ghost as_data = { λ shown. or_null (option_map T.as_data shown) };

    fn value(&self, alloc: Global) -> Result<Value, AllocError> {
        match self {
            None => Ok(Value::Null),
            Some(shown) => shown.value(alloc),
        }
    }
}

/// Each of these as a value.
pub(crate) fn values<T: AsValue>(alloc: Global, shown: &[T]) -> Result<Vec<Value>, AllocError>
    ensures { IfOk result (λ values. map view values.items ≡ map T.as_data shown.now) }
{
    let mut values = Vec::new(alloc);
    for one in shown {
        values.push(one.value(alloc)?)?;
    }
    Ok(values)
}

/// An array.
impl<T: AsValue> AsValue for List<T> {
    ghost as_data = { λ items. listed (map T.as_data items) };

    fn value(&self, alloc: Global) -> Result<Value, AllocError> {
        Ok(listed(values(alloc, self.as_slice())?))
    }
}

/// Puts what is shown under a name.
pub(crate) fn put_shown<T: AsValue>(
    alloc: Global,
    members: &mut Members,
    name: &str,
    shown: &T,
) -> Result<(), AllocError>
    ensures { OnOk result (members_view members.new.entries ≡ with_member name.now (T.as_data shown.now)
        (members_view members.old.entries)) }
{
    put(members, alloc, name, shown.value(alloc)?)
}

/// Puts what is shown under a name, if there is anything.
pub(crate) fn put_some<T: AsValue>(
    alloc: Global,
    members: &mut Members,
    name: &str,
    shown: &Option<T>,
) -> Result<(), AllocError>
    ensures { OnOk result (members_view members.new.entries ≡ put_given name.now (option_map T.as_data shown.now)
        (members_view members.old.entries)) }
{
    match shown {
        None => Ok(()),
        Some(shown) => put_shown(alloc, members, name, shown),
    }
}

/// An object with one field.
pub(crate) fn one<T: AsValue>(alloc: Global, name: &str, shown: &T) -> Result<Value, AllocError>
    ensures { IfOk result (λ value. view value ≡ with_one name.now (T.as_data shown.now)) }
{
    let mut members = Map::new(alloc);
    put_shown(alloc, &mut members, name, shown)?;
    Ok(Value::Object(members))
}

/// Puts what is shown, each under its name.
macro_rules! put_all {
    ($alloc:expr, $members:expr, $($name:literal => $shown:expr),+) => {{
        $($crate::as_value::put_shown($alloc, $members, $name, $shown)?;)+
        Ok(())
    }};
}

pub(crate) use put_all;

/// An object of what is shown, each under its name.
macro_rules! object_of {
    ($alloc:expr, $($name:literal => $shown:expr),+) => {{
        let mut members = serde_json::Map::new($alloc);
        $($crate::as_value::put_shown($alloc, &mut members, $name, $shown)?;)+
        Ok(serde_json::Value::Object(members))
    }};
}

pub(crate) use object_of;

/// An object of the members that are put.
macro_rules! object_with {
    ($alloc:expr, |$members:ident| $put:expr) => {{
        let mut $members = serde_json::Map::new($alloc);
        $put?;
        Ok(serde_json::Value::Object($members))
    }};
}

pub(crate) use object_with;
