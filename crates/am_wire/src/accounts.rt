//! Questions about what an intent would reach.
ghost use Rattle.std.specs.Prelude.{◌≡◌};
ghost use Rattle.serde_json.specs.Find.{as_str};
ghost use Rattle.serde_json.specs.View.{view};
ghost use Rattle.am_types.specs.Reading.{Gives};
ghost use Rattle.am_wire.specs.Accounts.{is_receiver, asks_receivers, permission_for, asked_with, explain_in};

use crate::activities::fields_where;
use crate::kinds::kind_of;
use am_types::{Kind, Request, Text};
use am_uri::Form;
use am_wire_fields::{Unread, optional_text, or_drop};
use am_wire_intents::required_intent;
use serde_json::Value;
use std::alloc::Global;

// The fields of a question about receivers, and of one about other components.
static OF_RECEIVERS: [&str; 5] = ["kind", "intent", "as", "permission", "of"];

static OF_OTHERS: [&str; 4] = ["kind", "intent", "as", "of"];

/// Whether a value is the word for receivers.
fn is_receiver(value: &Value) -> bool
    ensures { result ≡ is_receiver (as_str (view value.now)) }
{
    match value.as_str() {
        None => false,
        Some(word) => word == "receiver",
    }
}

/// Whether the field `kind` is `receiver`.
#[tactic(auto, unfolding(crate::specs::Accounts::asks_receivers))]
fn asks_receivers(body: &Value) -> bool
    ensures { result ≡ asks_receivers (view body.now) }
{
    match body.get("kind") {
        None => false,
        Some(value) => is_receiver(value),
    }
}

/// The permission that receivers must hold, if the text `permission` is given.
#[tactic(auto, unfolding(crate::specs::Accounts::permission_for))]
fn permission_for(alloc: Global, kind: Kind, body: &Value) -> Result<Option<Text>, Unread>
    ensures { Gives result (permission_for kind (view body.now)) }
{
    match kind {
        Kind::Activity | Kind::Service => Ok(None),
        Kind::Receiver => optional_text(alloc, Form::Any, "permission", body),
    }
}

/// The rest of the question, apart from its kind and intent: optionally the texts `as`, `permission` and `of`.
#[tactic(auto, unfolding(crate::specs::Accounts::asked_with))]
fn asked_with(
    alloc: Global,
    kind: Kind,
    body: &Value,
) -> Result<(Option<Text>, Option<Text>, Option<Text>), Unread>
    ensures { Gives result (asked_with (λ caller permission shown. (caller, permission, shown)) kind (view body.now)) }
{
    let caller = optional_text(alloc, Form::Any, "as", body)?;
    let permission = permission_for(alloc, kind, body)?;
    let shown = optional_text(alloc, Form::Any, "of", body)?;
    Ok((caller, permission, shown))
}

/// A question about what an intent would reach: `kind`, `intent`, and optionally the texts `as` and `of`. Only if
/// `kind` is `receiver` may there be the text `permission`, which is read before `of`.
#[tactic(auto, unfolding(crate::specs::Accounts::explain_in, crate::specs::Accounts::asked_with, crate::specs::Accounts::explain_fields))]
pub fn explain_in(alloc: Global, body: &Value) -> Result<Request, Unread>
    ensures { Gives result (explain_in (view body.now)) }
{
    fields_where(alloc, asks_receivers(body), &OF_RECEIVERS, &OF_OTHERS, body)?;
    let kind = kind_of(alloc, body)?;
    let intent = required_intent(alloc, "intent", body)?;
    let (caller, permission, shown) = or_drop!(asked_with(alloc, kind, body), intent);
    Ok(Request::Explain {
        kind,
        intent,
        caller,
        permission,
        shown,
    })
}
