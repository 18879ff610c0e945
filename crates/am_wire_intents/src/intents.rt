//! Intents.
ghost use Rattle.serde_json.specs.View.{view};
ghost use Rattle.am_model.specs.MimeTypes.{mime_of};
ghost use Rattle.am_model.specs.Uris.{uri_of};
ghost use Rattle.am_wire_fields.specs.Fields.{only_fields};
ghost use Rattle.am_types.specs.Reading.{Gives};
ghost use Rattle.am_wire_intents.specs.Intents.{categories_of, intent_fields, intent_in, intent_of, mime_or_fault, optional_intent, optional_mime, optional_uri, required_intent, uri_or_fault};

use crate::components::optional_component;
use crate::extras::optional_extras;
use crate::flags::flags_of;
use am_types::{Intent, List, Mime, MimeFault, Text, Unmade, Uri, UriFault};
use am_uri::{Form, parse_mime, parse_uri, sorted};
use am_wire_fields::{
    Unread, WireFault, if_said, only_fields, optional_list, optional_text, required, text_in,
    texts_in,
};
use serde_json::Value;
use std::alloc::Global;

/// The result of a parser: an error in the text is a fault of the body, and running out of memory stays that.
macro_rules! or_fault {
    ($parsed:expr, $fault:ident => $met:ident) => {
        match $parsed {
            Ok(value) => Ok(value),
            Err($fault::NoMemory) => Err(Unmade::NoMemory),
            Err(fault) => Err(Unmade::Fault(WireFault::$met(fault))),
        }
    };
}

/// The URI that a text is.
#[tactic(auto, unfolding(crate::specs::Intents::uri_or_fault))]
fn uri_of(alloc: Global, text: &Text) -> Result<Uri, Unread>
    ensures { Gives result (uri_or_fault (uri_of text.now)) }
{
    or_fault!(parse_uri(alloc, text), UriFault => BadUri)
}

/// The URI in a field, if it is present.
#[tactic(auto, unfolding(crate::specs::Intents::optional_uri, crate::specs::Intents::uri_in))]
fn optional_uri(alloc: Global, name: &str, object: &Value) -> Result<Option<Uri>, Unread>
    ensures { Gives result (optional_uri name.now (view object.now)) }
{
    if_said!(name, object, |value| {
        let text = text_in(alloc, Form::Any, 1024, name, value)?;
        uri_of(alloc, &text)
    })
}

/// The MIME type that a text is.
#[tactic(auto, unfolding(crate::specs::Intents::mime_or_fault))]
fn mime_of(alloc: Global, text: &Text) -> Result<Mime, Unread>
    ensures { Gives result (mime_or_fault (mime_of text.now)) }
{
    or_fault!(parse_mime(alloc, text), MimeFault => BadMime)
}

/// The MIME type in a field with a text of the form, if it is present.
#[tactic(auto, unfolding(crate::specs::Intents::optional_mime, crate::specs::Intents::mime_in))]
pub fn optional_mime(
    alloc: Global,
    form: Form,
    name: &str,
    object: &Value,
) -> Result<Option<Mime>, Unread>
    ensures { Gives result (optional_mime form name.now (view object.now)) }
{
    if_said!(name, object, |value| {
        let text = text_in(alloc, form, 1024, name, value)?;
        mime_of(alloc, &text)
    })
}

/// The categories that an intent or a filter lists, each of the form, sorted by bytes, each once.
#[tactic(auto, unfolding(crate::specs::Intents::categories_of, am_wire_fields::specs::Lists::optional_texts))]
pub fn categories_of(alloc: Global, form: Form, object: &Value) -> Result<List<Text>, Unread>
    ensures { Gives result (categories_of form (view object.now)) }
{
    let values = optional_list(alloc, "categories", object)?;
    let texts = texts_in(alloc, form, "categories", values)?;
    Ok(sorted(alloc, texts)?)
}

/// The contents of an intent.
#[tactic(auto, unfolding(crate::specs::Intents::intent_of))]
fn intent_of(alloc: Global, object: &Value) -> Result<Intent, Unread>
    ensures { Gives result (intent_of (view object.now)) }
{
    let action = optional_text(alloc, Form::Any, "action", object)?;
    let categories = categories_of(alloc, Form::Any, object)?;
    let component = optional_component(alloc, "component", object)?;
    let uri = optional_uri(alloc, "data", object)?;
    let extras = optional_extras(alloc, object)?;
    let flags = flags_of(alloc, object)?;
    let identifier = optional_text(alloc, Form::Any, "identifier", object)?;
    let package = optional_text(alloc, Form::Any, "package", object)?;
    let mime = optional_mime(alloc, Form::Any, "type", object)?;
    Ok(Intent {
        action,
        uri,
        mime,
        identifier,
        categories,
        package,
        component,
        flags,
        extras,
    })
}

/// Refuses a value that isn't an object with only the fields of an intent.
fn only_intent_fields(alloc: Global, name: &str, value: &Value) -> Result<(), Unread>
    ensures { Gives result (only_fields name.now intent_fields (view value.now)) }
{
    only_fields(
        alloc,
        name,
        &[
            "action",
            "categories",
            "component",
            "data",
            "extras",
            "flags",
            "identifier",
            "package",
            "type",
        ],
        value,
    )
}

/// The intent in a value: an object with the fields `action`, `categories`, `component`, `data` (a URI), `extras`,
/// `flags`, `identifier`, `package` and `type` (a MIME type), each of which may be absent or null. Texts have at most
/// 1,024 bytes, and lists at most 64 entries. `name` is what a fault calls the value.
///
/// # Errors
///
/// If the value isn't an object, then if it has another field, the least by bytes, and then the first fault of its
/// fields in the order above.
#[tactic(auto, unfolding(crate::specs::Intents::intent_in))]
pub fn intent_in(alloc: Global, name: &str, value: &Value) -> Result<Intent, Unread>
    ensures { Gives result (intent_in name.now (view value.now)) }
{
    only_intent_fields(alloc, name, value)?;
    intent_of(alloc, value)
}

/// The intent in a required field.
///
/// # Errors
///
/// If the field is absent or null, and then as for [`intent_in`].
#[tactic(auto, unfolding(crate::specs::Intents::required_intent))]
pub fn required_intent(alloc: Global, name: &str, object: &Value) -> Result<Intent, Unread>
    ensures { Gives result (required_intent name.now (view object.now)) }
{
    let value = required(alloc, name, object)?;
    intent_in(alloc, name, value)
}

/// The intent in a field: none if the field is absent or null.
///
/// # Errors
///
/// As for [`intent_in`].
#[tactic(auto, unfolding(crate::specs::Intents::optional_intent))]
pub fn optional_intent(alloc: Global, name: &str, object: &Value) -> Result<Option<Intent>, Unread>
    ensures { Gives result (optional_intent name.now (view object.now)) }
{
    if_said!(name, object, |value| intent_in(alloc, name, value))
}
