//! Broadcasts, registered receivers and deliveries.
ghost use Rattle.std.specs.Prelude.{◌≡◌, [], ◌∷◌, Ok, codes};
ghost use Rattle.serde_json.specs.View.{view};
ghost use Rattle.am_types.specs.Reading.{Gives};
ghost use Rattle.am_wire.specs.Activities.{fields_of};
ghost use Rattle.am_wire.specs.Broadcasts.{is_ordered, send_fields, outcome_of, ordered_in, ordered_if, sent_with, send_in, required_filter, register_in, sets_outcome, finish_fields, outcome_in, outcome_if, finish_in};

use crate::activities::{fields_of, fields_where};
use am_types::{Answer, Filter, Ordered, Outcome, Request, Text};
use am_uri::Form;
use am_wire_fields::{
    Unread, field, optional_text, optional_truth, optional_whole, or_drop, required,
    required_natural, required_whole,
};
use am_wire_intents::{filter_in, optional_extras, required_intent};
use serde_json::Value;
use std::alloc::Global;

// The fields of a broadcast that is ordered, and of another one.
static ORDERED: [&str; 7] = [
    "intent",
    "permission",
    "ordered",
    "code",
    "data",
    "extras",
    "result",
];

static UNORDERED: [&str; 3] = ["intent", "permission", "ordered"];

// The fields of an answer that sets an outcome, and of another one.
static SETTING: [&str; 5] = ["delivery", "abort", "code", "data", "extras"];

static NOT_SETTING: [&str; 3] = ["delivery", "abort", "code"];

// What is read if this is so, and none otherwise.
macro_rules! if_so {
    ($so:ident, $read:expr) => {{
        if !$so {
            return Ok(None);
        }
        let read = $read?;
        Ok(Some(read))
    }};
}

/// Whether the field `ordered` is `true`.
#[tactic(auto, unfolding(crate::specs::Broadcasts::is_ordered))]
fn is_ordered(body: &Value) -> bool
    ensures { result ≡ is_ordered (view body.now) }
{
    match body.get("ordered") {
        None => false,
        Some(value) => value.as_bool().unwrap_or(false),
    }
}

/// Refuses a broadcast with other fields than its own; it has more if it is ordered.
#[tactic(auto, unfolding(crate::specs::Broadcasts::send_fields))]
fn only_send_fields(alloc: Global, ordered: bool, body: &Value) -> Result<(), Unread>
    ensures { Gives result (fields_of (send_fields ordered) (view body.now)) }
{
    fields_where(alloc, ordered, &ORDERED, &UNORDERED, body)
}

/// The outcome with this code, and optionally the text `data` and `extras`.
fn outcome_of(alloc: Global, code: i64, body: &Value) -> Result<Outcome, Unread>
    ensures { Gives result (outcome_of code (λ outcome. Ok outcome) (view body.now)) }
{
    let text = optional_text(alloc, Form::Any, "data", body)?;
    let extras = optional_extras(alloc, body)?;
    Ok(Outcome { code, text, extras })
}

/// How an ordered broadcast starts: `code`, which is 0 if it is absent, optionally the text `data` and `extras`, and
/// `result`, which tells whether the sender wants the result.
#[tactic(auto, unfolding(crate::specs::Broadcasts::ordered_in))]
fn ordered_in(alloc: Global, body: &Value) -> Result<Ordered, Unread>
    ensures { Gives result (ordered_in (view body.now)) }
{
    let code = optional_whole(alloc, "code", body)?;
    let initial = outcome_of(alloc, code.unwrap_or(0), body)?;
    let wanted = or_drop!(optional_truth(alloc, "result", body), initial);
    Ok(Ordered { initial, wanted })
}

/// How a broadcast starts, if it is ordered.
#[tactic(auto, unfolding(crate::specs::Broadcasts::ordered_if))]
fn ordered_if(alloc: Global, ordered: bool, body: &Value) -> Result<Option<Ordered>, Unread>
    ensures { Gives result (ordered_if ordered (view body.now)) }
{
    if_so!(ordered, ordered_in(alloc, body))
}

/// The rest of a broadcast, apart from its intent: the permission that receivers must hold, and how it starts if it is
/// ordered.
#[tactic(auto, unfolding(crate::specs::Broadcasts::sent_with))]
fn sent_with(alloc: Global, body: &Value) -> Result<(Option<Text>, Option<Ordered>), Unread>
    ensures { Gives result (sent_with (λ permission ordered. (permission, ordered)) (view body.now)) }
{
    let permission = optional_text(alloc, Form::Any, "permission", body)?;
    let is_ordered = optional_truth(alloc, "ordered", body)?;
    let ordered = ordered_if(alloc, is_ordered, body)?;
    Ok((permission, ordered))
}

/// A broadcast: `intent`, optionally the text `permission`, and `ordered`, which is false if it is absent. Only if
/// it is `true` may there be `code`, `data`, `extras` and `result`.
#[tactic(auto, unfolding(crate::specs::Broadcasts::send_in, crate::specs::Broadcasts::sent_with))]
pub fn send_in(alloc: Global, body: &Value) -> Result<Request, Unread>
    ensures { Gives result (send_in (view body.now)) }
{
    only_send_fields(alloc, is_ordered(body), body)?;
    let intent = required_intent(alloc, "intent", body)?;
    let (permission, ordered) = or_drop!(sent_with(alloc, body), intent);
    Ok(Request::Send {
        intent,
        permission,
        ordered,
    })
}

/// Refuses a body with other fields than those of a receiver to be registered.
fn only_register_fields(alloc: Global, body: &Value) -> Result<(), Unread>
    ensures { Gives result (fields_of (codes "filter" ∷ codes "permission" ∷ []) (view body.now)) }
{
    fields_of(alloc, &["filter", "permission"], body)
}

/// The filter of a receiver to be registered.
#[tactic(auto, unfolding(crate::specs::Broadcasts::required_filter))]
fn required_filter(alloc: Global, body: &Value) -> Result<Filter, Unread>
    ensures { Gives result (required_filter (codes "filter") (view body.now)) }
{
    let value = required(alloc, "filter", body)?;
    filter_in(alloc, "filter", value)
}

/// A receiver to be registered: `filter`, and optionally the text `permission`.
#[tactic(auto, unfolding(crate::specs::Broadcasts::register_in))]
pub fn register_in(alloc: Global, body: &Value) -> Result<Request, Unread>
    ensures { Gives result (register_in (view body.now)) }
{
    only_register_fields(alloc, body)?;
    let filter = required_filter(alloc, body)?;
    let permission = or_drop!(optional_text(alloc, Form::Any, "permission", body), filter);
    Ok(Request::Register { filter, permission })
}

/// Whether an answer sets an outcome: it has the field `code`.
#[tactic(auto, unfolding(crate::specs::Broadcasts::sets_outcome))]
fn sets_outcome(body: &Value) -> bool
    ensures { result ≡ sets_outcome (view body.now) }
{
    field("code", body).is_some()
}

/// Refuses an answer with other fields than its own; it has more if it sets an outcome.
#[tactic(auto, unfolding(crate::specs::Broadcasts::finish_fields))]
fn only_finish_fields(alloc: Global, sets: bool, body: &Value) -> Result<(), Unread>
    ensures { Gives result (fields_of (finish_fields sets) (view body.now)) }
{
    fields_where(alloc, sets, &SETTING, &NOT_SETTING, body)
}

/// The outcome that an answer sets: `code`, and optionally the text `data` and `extras`.
#[tactic(auto, unfolding(crate::specs::Broadcasts::outcome_in))]
fn outcome_in(alloc: Global, body: &Value) -> Result<Outcome, Unread>
    ensures { Gives result (outcome_in (view body.now)) }
{
    let code = required_whole(alloc, "code", body)?;
    outcome_of(alloc, code, body)
}

/// The outcome that an answer sets, if it sets one.
#[tactic(auto, unfolding(crate::specs::Broadcasts::outcome_if))]
fn outcome_if(alloc: Global, sets: bool, body: &Value) -> Result<Option<Outcome>, Unread>
    ensures { Gives result (outcome_if sets (view body.now)) }
{
    if_so!(sets, outcome_in(alloc, body))
}

/// The answer to a delivery: the number `delivery`, `abort`, which is false if it is absent, and optionally `code`.
/// Only if `code` is present may there be `data` and `extras`.
#[tactic(auto, unfolding(crate::specs::Broadcasts::finish_in))]
pub fn finish_in(alloc: Global, body: &Value) -> Result<Request, Unread>
    ensures { Gives result (finish_in (view body.now)) }
{
    only_finish_fields(alloc, sets_outcome(body), body)?;
    let delivery = required_natural(alloc, "delivery", body)?;
    let abort = optional_truth(alloc, "abort", body)?;
    let set = outcome_if(alloc, sets_outcome(body), body)?;
    Ok(Request::Finish {
        delivery,
        answer: Answer { set, abort },
    })
}
