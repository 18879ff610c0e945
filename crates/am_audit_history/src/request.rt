//! The request of an entry.
ghost use Rattle.std.specs.Prelude.{◌≡◌, ◌↔◌, ℕ, Ok, Some, IsTrue, IfOk, IfSome, codes, option_and_then, string_bytes};
ghost use Rattle.std.specs.List.{find};
ghost use Rattle.std.specs.Option.{option_copied};
ghost use Rattle.serde_json.specs.Find.{as_str, get};
ghost use Rattle.serde_json.specs.View.{view};
ghost use Rattle.serde_json.specs.Written.{compact_text, has_float};
ghost use Rattle.am_types.specs.declared.history.Entry.{Entry};
ghost use Rattle.am_wire.specs.Requests.{request_of};
ghost use Rattle.am_wire_routes.specs.Table.{endpoint_at as endpoint_with, endpoint_for, is_at};
ghost use Rattle.am_wire_values.specs.Replies.{entry_data};
ghost use Rattle.am_wire_values.specs.Requests.{request_data};
ghost use Rattle.am_wire_read_back.specs.Written.{HasFewRows, IsReadable};
ghost use Rattle.am_audit_history.specs.Lines.{IsReadAgain};

use am_types::{NoMemory, Request, Unmade};
use am_wire::read_request;
use am_wire_read_back::request_text;
use am_wire_routes::{Endpoint, endpoint_of};
use serde_json::Value;
use std::alloc::Global;

/// The most rows that the filter of a receiver to be registered may have.
const MOST_ROWS: usize = 64;

// Whether the endpoint has the path.
fn is_at(path: &str, endpoint: Endpoint) -> bool
    ensures { result ≡ is_at path.now endpoint }
{
    endpoint.path() == path
}

// The first of these endpoints with the path.
fn find_at<'e>(endpoints: &'e [Endpoint], path: &str) -> Option<&'e Endpoint>
    ensures { option_copied result ≡ find (is_at path.entry.now) endpoints.entry.now }
{
    endpoints.iter().find(|endpoint| is_at(path, **endpoint))
}

// The endpoint with the path.
#[tactic(auto, unfolding(am_wire_routes::specs::Table::endpoint_at))]
fn endpoint_with(path: &str) -> Option<Endpoint>
    ensures { result ≡ endpoint_with path.now }
{
    match find_at(&Endpoint::ALL, path) {
        Some(endpoint) => Some(*endpoint),
        None => None,
    }
}

/// Whether the filter of a receiver to be registered lists at most 64 schemes, authorities, paths and types
/// together. Takes no memory.
pub fn has_few_rows(request: &Request) -> bool
    ensures { IsTrue result ↔ HasFewRows request.now }
{
    let Request::Register { filter, .. } = request else {
        return true;
    };
    let (schemes, authorities) = (
        filter.schemes.as_slice().len(),
        filter.authorities.as_slice().len(),
    );
    let (paths, types) = (filter.paths.as_slice().len(), filter.types.as_slice().len());
    schemes <= MOST_ROWS
        && authorities <= MOST_ROWS - schemes
        && paths <= MOST_ROWS - schemes - authorities
        && types <= MOST_ROWS - schemes - authorities - paths
}

// The request that was read from a body, if the body is the text that is written for it.
fn if_written(alloc: Global, request: Request, body: &str) -> Result<Option<Request>, NoMemory>
    requires { request_of (endpoint_for request) body.now ≡ Ok request }
    ensures again { IfOk result (λ found. IfSome found IsReadAgain) }
    ensures finds { body.now ≡ compact_text (request_data request) → HasFewRows request
        → IfOk result (λ found. found ≡ Some request) }
{
    if !has_few_rows(&request) {
        drop(request);
        return Ok(None);
    }
    match request_text(alloc, &request) {
        Ok(text) if text.as_str() == body => Ok(Some(request)),
        Ok(_) => {
            drop(request);
            Ok(None)
        }
        Err(error) => {
            drop(request);
            Err(error)
        }
    }
}

// The request that the value of a body gives at an endpoint, if the value is the request's own.
fn request_at(alloc: Global, endpoint: Endpoint, said: &Value) -> Result<Option<Request>, NoMemory>
    ensures again { IfOk result (λ found. IfSome found IsReadAgain) }
    ensures finds { (request : Request) → endpoint ≡ endpoint_for request → view said.now ≡ request_data request
        → IsReadAgain request → IfOk result (λ found. found ≡ Some request) }
{
    let body = said.to_string(alloc)?;
    match read_request(alloc, endpoint, body.as_bytes()) {
        Ok(request) => if_written(alloc, request, body.as_str()),
        Err(Unmade::Fault(_)) => Ok(None),
        Err(Unmade::NoMemory) => Err(NoMemory),
    }
}

// The route that a value says.
fn route_in(value: &Value) -> Option<&str>
    ensures { option_copied result ≡ option_and_then as_str (get (codes "route") (view value.entry.now)) }
{
    value.get("route").and_then(Value::as_str)
}

/// The request that the value of an entry gives at its route; some give none.
pub(crate) fn request_in(alloc: Global, value: &Value) -> Result<Option<Request>, NoMemory>
    ensures again { IfOk result (λ found. IfSome found IsReadAgain) }
    ensures finds { (at : ℕ) (entry : Entry) → view value.now ≡ entry_data at entry → IsReadAgain entry.request
        → IfOk result (λ found. found ≡ Some entry.request) }
{
    let Some(route) = route_in(value) else {
        return Ok(None);
    };
    let Some(endpoint) = endpoint_with(route) else {
        return Ok(None);
    };
    let Some(said) = value.get("request") else {
        return Ok(None);
    };
    request_at(alloc, endpoint, said)
}

/// Whether two requests that were read from bodies are the same. The second has few rows.
pub fn is_same_request(alloc: Global, one: &Request, other: &Request) -> Result<bool, NoMemory>
    requires one { IsReadable one.now }
    requires other { IsReadable other.now }
    requires few { HasFewRows other.now }
    ensures { IfOk result (λ same. IsTrue same ↔ (one.now ≡ other.now)) }
{
    if endpoint_of(one) != endpoint_of(other) || !has_few_rows(one) {
        return Ok(false);
    }
    let (one, other) = (request_text(alloc, one)?, request_text(alloc, other)?);
    Ok(one.as_str() == other.as_str())
}
