//! The text of an entry.
ghost use Rattle.std.specs.Prelude.{◌≡◌, ◌↔◌, IsTrue, IfOk};
ghost use Rattle.serde_json.specs.View.{view};
ghost use Rattle.am_wire_values.specs.Replies.{entry_data};
ghost use Rattle.am_wire_values.specs.Requests.{request_data};
ghost use Rattle.am_audit_history.specs.Lines.{IsTextOf};

use am_types::{Entry, NoMemory};
use am_wire_routes::endpoint_of;
use am_wire_values::request_value;
use serde_json::{Value, json};
use std::alloc::{AllocError, Global};

// An entry with its number, as a value; that of its request is given.
#[tactic(auto, unfolding(am_wire_values::specs::Replies::entry_data))]
fn entry_value(alloc: Global, at: u64, entry: &Entry, request: Value) -> Result<Value, AllocError>
    requires { view request ≡ request_data entry.now.request }
    ensures { IfOk result (λ value. view value ≡ entry_data at entry.entry.now) }
{
    json!(in alloc; {
        "at": at,
        "desk": entry.desk,
        "kept": entry.kept,
        "now": entry.now,
        "request": request,
        "route": endpoint_of(&entry.request).path(),
        "uid": entry.uid,
        "weight": entry.weight,
    })
}

/// Whether the text is the text of the entry with this number.
pub(crate) fn is_text_of(
    alloc: Global,
    at: u64,
    entry: &Entry,
    text: &[u8],
) -> Result<bool, NoMemory>
    ensures { IfOk result (λ is. IsTrue is ↔ IsTextOf at entry.entry.now text.now) }
{
    let request = request_value(alloc, &entry.request)?;
    let written = entry_value(alloc, at, entry, request)?.to_string(alloc)?;
    Ok(written.as_bytes() == text)
}
