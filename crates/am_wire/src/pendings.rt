//! Pending intents.
ghost use Rattle.serde_json.specs.View.{view};
ghost use Rattle.am_types.specs.Reading.{Gives};
ghost use Rattle.am_wire.specs.Pendings.{pending_get_in, pending_send_in, pending_give_in};

use crate::activities::fields_of;
use crate::kinds::{pending_flags_of, pending_kind_of};
use am_types::Request;
use am_uri::Form;
use am_wire_fields::{Unread, or_drop, required_natural, required_text, required_whole};
use am_wire_intents::{optional_intent, required_intent};
use serde_json::Value;
use std::alloc::Global;

/// A request for a pending intent: `kind`, the signed number `code`, `intent` and the list `flags`.
#[tactic(auto, unfolding(crate::specs::Pendings::pending_get_in))]
pub fn pending_get_in(alloc: Global, body: &Value) -> Result<Request, Unread>
    ensures { Gives result (pending_get_in (view body.now)) }
{
    fields_of(alloc, &["kind", "code", "intent", "flags"], body)?;
    let kind = pending_kind_of(alloc, body)?;
    let code = required_whole(alloc, "code", body)?;
    let intent = required_intent(alloc, "intent", body)?;
    let flags = or_drop!(pending_flags_of(alloc, body), intent);
    Ok(Request::PendingGet {
        kind,
        code,
        intent,
        flags,
    })
}

/// A use of a pending intent: the number `token`, and optionally the intent `fill`.
#[tactic(auto, unfolding(crate::specs::Pendings::pending_send_in))]
pub fn pending_send_in(alloc: Global, body: &Value) -> Result<Request, Unread>
    ensures { Gives result (pending_send_in (view body.now)) }
{
    fields_of(alloc, &["token", "fill"], body)?;
    let token = required_natural(alloc, "token", body)?;
    let fill = optional_intent(alloc, "fill", body)?;
    Ok(Request::PendingSend { token, fill })
}

/// A pending intent to be given to a package: the number `token` and the text `package`.
#[tactic(auto, unfolding(crate::specs::Pendings::pending_give_in))]
pub fn pending_give_in(alloc: Global, body: &Value) -> Result<Request, Unread>
    ensures { Gives result (pending_give_in (view body.now)) }
{
    fields_of(alloc, &["token", "package"], body)?;
    let token = required_natural(alloc, "token", body)?;
    let package = required_text(alloc, Form::Any, "package", body)?;
    Ok(Request::PendingGive { token, package })
}
