//! Fields with texts.
ghost use Rattle.std.specs.Prelude.{Some};
ghost use Rattle.serde_json.specs.View.{view};
ghost use Rattle.am_types.specs.Reading.{Gives};
ghost use Rattle.am_wire_fields.specs.Texts.{optional_text, required_text, text_in, text_of, text_within};

use crate::fields::required;
use crate::naming::{too_long, wrong_kind};
use crate::{Unread, if_said};
use am_types::Text;
use am_uri::Form;
use serde_json::Value;
use std::alloc::Global;

/// The text, unless it has more than `limit` bytes. `name` is what a fault calls it.
///
/// # Errors
///
/// If the text is too long.
pub fn text_within(alloc: Global, limit: usize, name: &str, text: &str) -> Result<Text, Unread>
    ensures { Gives result (text_within limit name.now text.now) }
{
    if text.len() > limit {
        return Err(too_long(alloc, name));
    }
    Ok(Text::of(alloc, text)?)
}

/// The text, if it has the form and isn't too long.
#[tactic(auto, unfolding(crate::specs::Texts::text_of))]
fn fitting(alloc: Global, form: Form, limit: usize, name: &str, text: &str) -> Result<Text, Unread>
    ensures { Gives result (text_of form limit name.now (Some text.now)) }
{
    if !form.fits(text) {
        return Err(wrong_kind(alloc, name));
    }
    text_within(alloc, limit, name, text)
}

/// The text of the form in a value, of at most `limit` bytes. `name` is what a fault calls the value.
///
/// # Errors
///
/// If the value isn't a text of the form, and then if it is too long.
#[tactic(auto, unfolding(crate::specs::Texts::text_in, crate::specs::Texts::text_of))]
pub fn text_in(
    alloc: Global,
    form: Form,
    limit: usize,
    name: &str,
    value: &Value,
) -> Result<Text, Unread>
    ensures { Gives result (text_in form limit name.now (view value.now)) }
{
    match value.as_str() {
        None => Err(wrong_kind(alloc, name)),
        Some(text) => fitting(alloc, form, limit, name, text),
    }
}

/// The text of the form in a required field, of at most 1,024 bytes.
///
/// # Errors
///
/// If the field is absent or null, then if its value isn't a text of the form, and then if that is too long.
#[tactic(auto, unfolding(crate::specs::Texts::required_text))]
pub fn required_text(alloc: Global, form: Form, name: &str, object: &Value) -> Result<Text, Unread>
    ensures { Gives result (required_text form 1024 name.now (view object.now)) }
{
    let value = required(alloc, name, object)?;
    text_in(alloc, form, 1024, name, value)
}

/// The text of the form in a field, of at most 1,024 bytes: none if the field is absent or null.
///
/// # Errors
///
/// If the field's value isn't a text of the form, and then if that is too long.
#[tactic(auto, unfolding(crate::specs::Texts::optional_text))]
pub fn optional_text(
    alloc: Global,
    form: Form,
    name: &str,
    object: &Value,
) -> Result<Option<Text>, Unread>
    ensures { Gives result (optional_text form 1024 name.now (view object.now)) }
{
    if_said!(
        name,
        object,
        |value| text_in(alloc, form, 1024, name, value)
    )
}
