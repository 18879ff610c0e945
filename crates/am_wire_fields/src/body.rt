//! The JSON value of a body.
ghost use Rattle.std.specs.Prelude.{◌≡◌};
ghost use Rattle.serde_json.specs.Errors.{IsMemory};
ghost use Rattle.serde_json.specs.View.{view};
ghost use Rattle.am_types.specs.Reading.{GivesBy};
ghost use Rattle.am_wire_fields.specs.Bodies.{value_of};

use crate::{Unread, WireFault};
use am_types::Unmade;
use serde_json::Value;
use std::alloc::Global;

/// The fault of bytes for which `serde_json` gave this error: they aren't JSON, unless memory ran out.
fn fault_of(error: &serde_json::Error) -> Unread
    ensures memory { IsMemory error.now → result ≡ Unmade.NoMemory }
    ensures refused { ¬ IsMemory error.now → result ≡ Unmade.Fault WireFault.NotJson }
{
    if error.is_memory() {
        Unmade::NoMemory
    } else {
        Unmade::Fault(WireFault::NotJson)
    }
}

/// The JSON value of the bytes. If a key occurs twice in an object, the last value counts.
///
/// # Errors
///
/// If the bytes aren't one JSON value in UTF-8: also if arrays and objects nest more than 127 deep, and if a number is
/// too large for a float.
#[tactic(auto, using(crate::proofs::JsonValues::value_of_text, crate::proofs::JsonValues::value_of_none))]
pub fn json_value(alloc: Global, bytes: &[u8]) -> Result<Value, Unread>
    ensures { GivesBy view result (value_of bytes.now) }
{
    match Value::from_slice(alloc, bytes) {
        Ok(value) => Ok(value),
        Err(error) => Err(fault_of(&error)),
    }
}
