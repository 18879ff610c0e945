//! Values that are printed from their trees.
ghost use Rattle.std.specs.Prelude.{◌≡◌, ◌++◌, OnOk, false, map};
ghost use Rattle.serde_json.specs.Data.{number};
ghost use Rattle.serde_json.specs.Find.{is_float};
ghost use Rattle.serde_json.specs.View.{items_view, members_view, number_view, view};
ghost use Rattle.serde_json.specs.Written.{has_float, items_have_float, members_have_float};
ghost use Rattle.am_wire_replies.specs.Printing.{tokens_of, tokens_of_items, tokens_of_members};

use crate::printer::Printer;
use serde_json::{Map, Number, Value};
use std::alloc::AllocError;

/// Writes a value that has no float.
#[cycle(trees)]
pub(crate) fn print_tree(to: &mut Printer, value: &Value) -> Result<(), AllocError>
    requires { has_float (view value.now) ≡ false }
    ensures { OnOk result (to.new ≡ to.old ++ tokens_of (view value.now)) }
{
    match value {
        Value::Null => to.null(),
        Value::Bool(truth) => to.truth(*truth),
        Value::Number(number) => print_number(to, number),
        Value::String(text) => to.text(text.as_str()),
        Value::Array(items) => {
            to.begin_array()?;
            print_items(to, items.as_slice())
        }
        Value::Object(members) => {
            to.begin_object()?;
            print_members(to, members)
        }
    }
}

/// Writes the items of an array, and the bracket that closes it.
#[cycle(trees)]
fn print_items(to: &mut Printer, items: &[Value]) -> Result<(), AllocError>
    requires { items_have_float (items_view items.now) ≡ false }
    ensures { OnOk result (to.new ≡ to.old ++ tokens_of_items (map view items.now)) }
{
    for item in items {
        print_tree(to, item)?;
    }
    to.end_array()
}

/// Writes the members of an object, and the bracket that closes it.
#[cycle(trees)]
fn print_members(to: &mut Printer, members: &Map<String, Value>) -> Result<(), AllocError>
    requires { members_have_float (members_view members.now.entries) ≡ false }
    ensures { OnOk result (to.new ≡ to.old ++ tokens_of_members (members_view members.now.entries)) }
{
    for (name, member) in members.iter() {
        to.name(name.as_str())?;
        print_tree(to, member)?;
    }
    to.end_object()
}

/// Writes a number that is no float.
fn print_number(to: &mut Printer, shown: &Number) -> Result<(), AllocError>
    requires { is_float (number_view shown.now) ≡ false }
    ensures { OnOk result (to.new ≡ to.old ++ tokens_of (number (number_view shown.now))) }
{
    match shown.as_u64() {
        Some(natural) => to.natural(natural),
        None => match shown.as_i64() {
            Some(whole) => to.integer(whole),
            None => unreachable!(),
        },
    }
}
