//! One line.
ghost use Rattle.std.specs.Prelude.{◌≡◌, ℕ, Some, IfOk, IfSome};
ghost use Rattle.serde_json.specs.View.{view};
ghost use Rattle.am_types.specs.declared.history.Entry.{Entry as Said};
ghost use Rattle.am_wire_values.specs.Replies.{entry_data};
ghost use Rattle.am_audit_history.specs.Lines.{IsTextOf, IsWhole, Tells};

use crate::numbers::numbers_in;
use crate::request::request_in;
use crate::text::is_text_of;
use am_types::{Entry, NoMemory, Unmade};
use am_wire_fields::json_value;
use serde_json::Value;
use std::alloc::Global;

/// The entry with this number that a line with its newline is; none if it isn't the compact text of an entry
/// that was kept and whose request its route reads again.
pub fn read_line(alloc: Global, at: u64, line: &[u8]) -> Result<Option<Entry>, NoMemory>
    ensures { IfOk result (λ found. Tells at line.now found) }
{
    let Some(text) = line.strip_suffix(b"\n") else {
        return Ok(None);
    };
    let Some(entry) = entry_said(alloc, text)? else {
        return Ok(None);
    };
    match is_text_of(alloc, at, &entry, text) {
        Ok(true) => Ok(Some(entry)),
        Ok(false) => {
            drop(entry);
            Ok(None)
        }
        Err(error) => {
            drop(entry);
            Err(error)
        }
    }
}

// The entry that the text gives, with any number and written in any way. Some texts give none.
fn entry_said(alloc: Global, text: &[u8]) -> Result<Option<Entry>, NoMemory>
    ensures whole { IfOk result (λ found. IfSome found IsWhole) }
    ensures finds { (at : ℕ) (entry : Said) → IsTextOf at entry text.now → IsWhole entry
        → IfOk result (λ found. found ≡ Some entry) }
{
    match json_value(alloc, text) {
        Ok(value) => entry_in(alloc, &value),
        Err(Unmade::Fault(_)) => Ok(None),
        Err(Unmade::NoMemory) => Err(NoMemory),
    }
}

// The entry that the value gives. Some values give none.
fn entry_in(alloc: Global, value: &Value) -> Result<Option<Entry>, NoMemory>
    ensures whole { IfOk result (λ found. IfSome found IsWhole) }
    ensures finds { (at : ℕ) (entry : Said) → view value.now ≡ entry_data at entry → IsWhole entry
        → IfOk result (λ found. found ≡ Some entry) }
{
    let Some(numbers) = numbers_in(value) else {
        return Ok(None);
    };
    let Some(request) = request_in(alloc, value)? else {
        return Ok(None);
    };
    Ok(Some(Entry {
        desk: numbers.desk,
        uid: numbers.uid,
        now: numbers.now,
        weight: numbers.weight,
        request,
        kept: true,
    }))
}
