//! Names of kinds, flags, placements, and of the reasons for leaving a component out.
ghost use Rattle.std.specs.Prelude.{◌≡◌, IfOk, map};
ghost use Rattle.serde_json.specs.Data.{string};
ghost use Rattle.serde_json.specs.View.{view};
ghost use Rattle.am_wire_values.specs.Names.{flags_named, kind_name, names_set, narrowing_name, pending_name, pending_named, placed_name, why_name};

use crate::fields;
use am_types::{Flags, Kind, Narrowing, PendingFlags, Placed, Why};
use serde_json::Value;
use std::alloc::{AllocError, Global};

/// A kind of component.
pub(crate) fn kind_name(kind: Kind) -> &'static str
    ensures { result.now ≡ kind_name kind }
{
    match kind {
        Kind::Activity => "activity",
        Kind::Service => "service",
        Kind::Receiver => "receiver",
    }
}

/// What a pending intent does.
pub(crate) fn pending_name(kind: Kind) -> &'static str
    ensures { result.now ≡ pending_name kind }
{
    match kind {
        Kind::Receiver => "broadcast",
        _ => kind_name(kind),
    }
}

/// What a start did. Takes no memory.
pub fn placed_name(how: Placed) -> &'static str
    ensures { result.now ≡ placed_name how }
{
    match how {
        Placed::Fresh => "fresh",
        Placed::NewIntent => "new_intent",
        Placed::Fronted => "fronted",
    }
}

/// Why a filter doesn't pass. Takes no memory.
pub fn why_name(why: Why) -> &'static str
    ensures { result.now ≡ why_name why }
{
    match why {
        Why::Action => "action",
        Why::Scheme => "scheme",
        Why::Host => "host",
        Why::Path => "path",
        Why::Type_ => "type",
        Why::Category => "category",
    }
}

/// What the activities that open a web intent are narrowed to. Takes no memory.
pub fn narrowing_name(by: Narrowing) -> &'static str
    ensures { result.now ≡ narrowing_name by }
{
    match by {
        Narrowing::Approved => "approved",
        Narrowing::Browser => "browser",
        Narrowing::General => "general",
    }
}

/// The flags of an intent with their names.
fn flags_named(flags: Flags) -> [(bool, &'static str); 10]
    ensures { map (λ n. (n.0, n.1.now)) result ≡ flags_named flags }
{
    [
        (flags.new_task, "NEW_TASK"),
        (flags.multiple_task, "MULTIPLE_TASK"),
        (flags.clear_task, "CLEAR_TASK"),
        (flags.clear_top, "CLEAR_TOP"),
        (flags.single_top, "SINGLE_TOP"),
        (flags.reorder_to_front, "REORDER_TO_FRONT"),
        (flags.registered_only, "REGISTERED_ONLY"),
        (flags.foreground, "FOREGROUND"),
        (flags.no_abort, "NO_ABORT"),
        (flags.include_stopped, "INCLUDE_STOPPED"),
    ]
}

/// The flags that a pending intent is requested with, with their names.
fn pending_named(flags: PendingFlags) -> [(bool, &'static str); 6]
    ensures { map (λ n. (n.0, n.1.now)) result ≡ pending_named flags }
{
    [
        (flags.one_shot, "ONE_SHOT"),
        (flags.no_create, "NO_CREATE"),
        (flags.cancel_current, "CANCEL_CURRENT"),
        (flags.update_current, "UPDATE_CURRENT"),
        (flags.immutable, "IMMUTABLE"),
        (flags.mutable, "MUTABLE"),
    ]
}

/// The names of the flags of an intent, each as a value.
pub(crate) fn flag_values(alloc: Global, flags: Flags) -> Result<Vec<Value>, AllocError>
    ensures { IfOk result (λ values. map view values.items ≡ map string (names_set (flags_named flags))) }
{
    let named = flags_named(flags);
    fields::names_set(alloc, named.as_slice())
}

/// The names of the flags that a pending intent is requested with, each as a value.
pub(crate) fn pending_flag_values(
    alloc: Global,
    flags: PendingFlags,
) -> Result<Vec<Value>, AllocError>
    ensures { IfOk result (λ values. map view values.items ≡ map string (names_set (pending_named flags))) }
{
    let named = pending_named(flags);
    fields::names_set(alloc, named.as_slice())
}
