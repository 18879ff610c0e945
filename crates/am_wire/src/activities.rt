//! Bodies with one field or none, queries, activities and services.
ghost use Rattle.std.specs.Prelude.{[], ◌∷◌, codes, map, if◌then◌else◌};
ghost use Rattle.serde_json.specs.View.{view};
ghost use Rattle.am_types.specs.Reading.{Gives};
ghost use Rattle.am_wire.specs.Activities.{fields_of, plain_in, number_in, advance_in, query_in, start_in, start_service_in, stop_service_in};

use crate::kinds::kind_of;
use am_types::Request;
use am_wire_fields::{
    Unread, only_fields, optional_natural, optional_truth, or_drop, required, required_natural,
    required_up_to,
};
use am_wire_intents::{component_in, required_intent};
use serde_json::Value;
use std::alloc::Global;

/// Refuses a body that isn't an object with only these fields.
#[tactic(auto, unfolding(crate::specs::Activities::fields_of))]
pub fn fields_of(alloc: Global, fields: &[&str], body: &Value) -> Result<(), Unread>
    ensures { Gives result (fields_of (map (λ listed. listed.now) fields.now) (view body.now)) }
{
    only_fields(alloc, "body", fields, body)
}

/// Refuses a body that isn't an object with only these fields: those of the long list if there may be more, otherwise
/// those of the short one.
pub fn fields_where(
    alloc: Global,
    more: bool,
    long: &[&str],
    short: &[&str],
    body: &Value,
) -> Result<(), Unread>
    ensures { Gives result (fields_of (if more then map (λ listed. listed.now) long.now
        else map (λ listed. listed.now) short.now) (view body.now)) }
{
    if more {
        fields_of(alloc, long, body)
    } else {
        fields_of(alloc, short, body)
    }
}

/// The request, which has no fields.
#[tactic(auto, unfolding(crate::specs::Activities::plain_in))]
pub fn plain_in(alloc: Global, request: Request, body: &Value) -> Result<Request, Unread>
    ensures { Gives result (plain_in request (view body.now)) }
{
    or_drop!(fields_of(alloc, &[], body), request);
    Ok(request)
}

/// The number in a body whose only field is a whole number from 0 on.
#[tactic(auto, unfolding(crate::specs::Activities::number_in))]
pub fn number_in(alloc: Global, name: &str, body: &Value) -> Result<u64, Unread>
    ensures { Gives result (number_in name.now (view body.now)) }
{
    fields_of(alloc, &[name], body)?;
    required_natural(alloc, name, body)
}

/// By how many milliseconds the moment is moved ahead at most: 2^50.
const GREATEST_ADVANCE: u64 = 1_125_899_906_842_624;

/// A move of the moment ahead: `by`, a number of milliseconds.
#[tactic(auto, unfolding(crate::specs::Activities::advance_in))]
pub fn advance_in(alloc: Global, body: &Value) -> Result<Request, Unread>
    ensures { Gives result (advance_in (view body.now)) }
{
    fields_of(alloc, &["by"], body)?;
    let by = required_up_to(alloc, GREATEST_ADVANCE, "by", body)?;
    Ok(Request::Advance { by })
}

/// Refuses a body with other fields than those of a query.
fn only_query_fields(alloc: Global, body: &Value) -> Result<(), Unread>
    ensures { Gives result (fields_of (codes "kind" ∷ codes "intent" ∷ codes "defaultOnly" ∷ []) (view body.now)) }
{
    fields_of(alloc, &["kind", "intent", "defaultOnly"], body)
}

/// A query: `kind`, `intent`, and `defaultOnly`, which is false if it is absent.
#[tactic(auto, unfolding(crate::specs::Activities::query_in))]
pub fn query_in(alloc: Global, body: &Value) -> Result<Request, Unread>
    ensures { Gives result (query_in (view body.now)) }
{
    only_query_fields(alloc, body)?;
    let kind = kind_of(alloc, body)?;
    let intent = required_intent(alloc, "intent", body)?;
    let default_only = or_drop!(optional_truth(alloc, "defaultOnly", body), intent);
    Ok(Request::Query {
        kind,
        intent,
        default_only,
    })
}

/// A start of an activity: `intent`, and optionally the number `source` of an activity instance.
#[tactic(auto, unfolding(crate::specs::Activities::start_in))]
pub fn start_in(alloc: Global, body: &Value) -> Result<Request, Unread>
    ensures { Gives result (start_in (view body.now)) }
{
    fields_of(alloc, &["intent", "source"], body)?;
    let intent = required_intent(alloc, "intent", body)?;
    let source = or_drop!(optional_natural(alloc, "source", body), intent);
    Ok(Request::Start { intent, source })
}

/// A start of a service: `intent`.
#[tactic(auto, unfolding(crate::specs::Activities::start_service_in))]
pub fn start_service_in(alloc: Global, body: &Value) -> Result<Request, Unread>
    ensures { Gives result (start_service_in (view body.now)) }
{
    fields_of(alloc, &["intent"], body)?;
    let intent = required_intent(alloc, "intent", body)?;
    Ok(Request::StartService { intent })
}

/// The stop of a service: `component`.
#[tactic(auto, unfolding(crate::specs::Activities::stop_service_in))]
pub fn stop_service_in(alloc: Global, body: &Value) -> Result<Request, Unread>
    ensures { Gives result (stop_service_in (view body.now)) }
{
    fields_of(alloc, &["component"], body)?;
    let value = required(alloc, "component", body)?;
    let component = component_in(alloc, "component", value)?;
    Ok(Request::StopService { component })
}
