//! Packages, grants and links.
ghost use Rattle.serde_json.specs.Find.{as_str};
ghost use Rattle.serde_json.specs.View.{view};
ghost use Rattle.am_types.specs.Reading.{Gives};
ghost use Rattle.am_wire.specs.Packages.{key_of, key_in, install_in, package_in, right_in, grant_in, link_in};

use crate::activities::fields_of;
use am_types::{Request, Text};
use am_uri::{Form, is_visible};
use am_wire_fields::{
    Unread, required, required_text, required_truth, text_in, text_within, wrong_kind,
};
use serde_json::Value;
use std::alloc::Global;

/// The key in a value.
#[tactic(auto, unfolding(crate::specs::Packages::key_of))]
fn key_of(alloc: Global, value: &Value) -> Result<Text, Unread>
    ensures { Gives result (key_of (as_str (view value.now))) }
{
    let Some(text) = value.as_str() else {
        return Err(wrong_kind(alloc, "key"));
    };
    if text.is_empty() {
        return Err(wrong_kind(alloc, "key"));
    }
    if !is_visible(text) {
        return Err(wrong_kind(alloc, "key"));
    }
    text_within(alloc, 255, "key", text)
}

/// The field `key`, which is required: 1 to 255 visible ASCII characters.
#[tactic(auto, unfolding(crate::specs::Packages::key_in))]
fn key_in(alloc: Global, body: &Value) -> Result<Text, Unread>
    ensures { Gives result (key_in (view body.now)) }
{
    let value = required(alloc, "key", body)?;
    key_of(alloc, value)
}

/// A package to be installed: the text `manifest`, of at most 65,536 bytes, and `key`.
#[tactic(auto, unfolding(crate::specs::Packages::install_in, am_wire_fields::specs::Texts::required_text))]
pub fn install_in(alloc: Global, body: &Value) -> Result<Request, Unread>
    ensures { Gives result (install_in (view body.now)) }
{
    fields_of(alloc, &["manifest", "key"], body)?;
    let value = required(alloc, "manifest", body)?;
    let text = text_in(alloc, Form::Any, 65_536, "manifest", value)?;
    let key = key_in(alloc, body)?;
    Ok(Request::Install { text, key })
}

/// The text in a body whose only field is the text `package`.
#[tactic(auto, unfolding(crate::specs::Packages::package_in))]
pub fn package_in(alloc: Global, body: &Value) -> Result<Text, Unread>
    ensures { Gives result (package_in (view body.now)) }
{
    fields_of(alloc, &["package"], body)?;
    required_text(alloc, Form::Any, "package", body)
}

/// A right given or taken: the text `package`, and a text and a boolean with these names.
#[tactic(auto, unfolding(crate::specs::Packages::right_in))]
fn right_in(
    alloc: Global,
    text_name: &str,
    held_name: &str,
    body: &Value,
) -> Result<(Text, Text, bool), Unread>
    ensures { Gives result (right_in text_name.now held_name.now (λ name text held. (name, text, held))
        (view body.now)) }
{
    fields_of(alloc, &["package", text_name, held_name], body)?;
    let package = required_text(alloc, Form::Any, "package", body)?;
    let text = required_text(alloc, Form::Any, text_name, body)?;
    let held = required_truth(alloc, held_name, body)?;
    Ok((package, text, held))
}

/// A permission given or taken: the texts `package` and `permission`, and `held`.
#[tactic(auto, using(crate::proofs::Rights::right_made), unfolding(crate::specs::Packages::grant_in))]
pub fn grant_in(alloc: Global, body: &Value) -> Result<Request, Unread>
    ensures { Gives result (grant_in (view body.now)) }
{
    let (package, text, held) = right_in(alloc, "permission", "held", body)?;
    Ok(Request::Grant {
        package,
        permission: text,
        held,
    })
}

/// A link approved or not: the texts `package` and `host`, which is put in lower case (ASCII), and `approved`.
#[tactic(auto, using(crate::proofs::Rights::right_made), unfolding(crate::specs::Packages::link_in))]
pub fn link_in(alloc: Global, body: &Value) -> Result<Request, Unread>
    ensures { Gives result (link_in (view body.now)) }
{
    let (package, text, approved) = right_in(alloc, "host", "approved", body)?;
    let host = Text::lowered(alloc, text.as_str())?;
    Ok(Request::Link {
        package,
        host,
        approved,
    })
}
