//! The text of a request's body.
ghost use Rattle.std.specs.Prelude.{◌≡◌, IfOk, Ok, string_bytes};
ghost use Rattle.serde_json.specs.Written.{compact_text};
ghost use Rattle.am_wire_values.specs.Requests.{request_data};
ghost use Rattle.am_wire_routes.specs.Table.{endpoint_for};
ghost use Rattle.am_wire.specs.Requests.{request_of};
ghost use Rattle.am_wire_read_back.specs.Written.{HasFewRows, IsReadable};

use am_types::{NoMemory, Request};
use am_wire_values::request_value;
use std::alloc::Global;

/// The text of the request's body: its value as compact JSON, `{}` if the endpoint looks at no body. The request's
/// endpoint reads it back as the request, if it reads any body as that request; a filter to be registered must list at
/// most 64 schemes, authorities, paths and types together, since each is written as a row of its own.
#[tactic(auto, using(am_wire_values::proofs::Floats::request_none))]
pub fn request_text(alloc: Global, request: &Request) -> Result<String, NoMemory>
    ensures text { IfOk result (λ text. string_bytes text ≡ compact_text (request_data request.now)) }
    ensures read_back { IfOk result
        (λ text. IsReadable request.now → HasFewRows request.now
        → request_of (endpoint_for request.now) (string_bytes text) ≡ Ok request.now) }
{
    Ok(request_value(alloc, request)?.to_string(alloc)?)
}
