//! The flags of an intent, by their names.
ghost use Rattle.std.specs.Prelude.{◌≡◌, codes, map};
ghost use Rattle.serde_json.specs.View.{view};
ghost use Rattle.am_wire_fields.specs.Lists.{words_in};
ghost use Rattle.am_types.specs.Reading.{Gives, GivesBy};
ghost use Rattle.am_wire_intents.specs.Flags.{flag_names, flags_listed, flags_of};

use am_types::Flags;
use am_wire_fields::{Unread, is_listed, optional_list, words_in};
use serde_json::Value;
use std::alloc::Global;

/// The flags whose names are listed, once or more often.
#[tactic(auto, unfolding(crate::specs::Flags::flags_listed))]
fn flags_listed(names: &[&str]) -> Flags
    ensures { result ≡ flags_listed (map (λ name. name.now) names.now) }
{
    Flags {
        new_task: is_listed(names, "NEW_TASK"),
        multiple_task: is_listed(names, "MULTIPLE_TASK"),
        clear_task: is_listed(names, "CLEAR_TASK"),
        clear_top: is_listed(names, "CLEAR_TOP"),
        single_top: is_listed(names, "SINGLE_TOP"),
        reorder_to_front: is_listed(names, "REORDER_TO_FRONT"),
        registered_only: is_listed(names, "REGISTERED_ONLY"),
        foreground: is_listed(names, "FOREGROUND"),
        no_abort: is_listed(names, "NO_ABORT"),
        include_stopped: is_listed(names, "INCLUDE_STOPPED"),
    }
}

/// The flags' names in values.
fn names_in<'v>(alloc: Global, values: &'v [Value]) -> Result<Vec<&'v str>, Unread>
    ensures { GivesBy (λ names. map (λ name. name.now) names.items) result
        (words_in flag_names (codes "flags") (map view values.now)) }
{
    words_in(
        alloc,
        &[
            "NEW_TASK",
            "MULTIPLE_TASK",
            "CLEAR_TASK",
            "CLEAR_TOP",
            "SINGLE_TOP",
            "REORDER_TO_FRONT",
            "REGISTERED_ONLY",
            "FOREGROUND",
            "NO_ABORT",
            "INCLUDE_STOPPED",
        ],
        "flags",
        values,
    )
}

/// The flags that the field `flags` lists, each once or more often: none if it is absent or null.
///
/// # Errors
///
/// If the field's value isn't an array, then if that has more than 64 entries, and then if an entry isn't a flag's
/// name.
#[tactic(auto, unfolding(crate::specs::Flags::flags_of))]
pub fn flags_of(alloc: Global, object: &Value) -> Result<Flags, Unread>
    ensures { Gives result (flags_of (view object.now)) }
{
    let values = optional_list(alloc, "flags", object)?;
    let names = names_in(alloc, values)?;
    Ok(flags_listed(names.as_slice()))
}
