//! The words of kinds and of pending flags.
ghost use Rattle.std.specs.Prelude.{◌≡◌, codes, map};
ghost use Rattle.serde_json.specs.View.{view};
ghost use Rattle.am_types.specs.Reading.{Gives, GivesBy};
ghost use Rattle.am_wire_fields.specs.Lists.{words_in};
ghost use Rattle.am_wire.specs.Words.{kind_among, kind_named, kind_of, pending_kind_of, pending_flag_names, pending_flags_listed, pending_flags_of};

use am_types::{Kind, PendingFlags};
use am_wire_fields::{Unread, is_listed, list_in, required, word_in, words_in};
use serde_json::Value;
use std::alloc::Global;

/// The kind that a word names. A broadcast reaches receivers.
fn kind_named(word: &str) -> Kind
    ensures { result ≡ kind_named word.now }
{
    match word {
        "activity" => Kind::Activity,
        "service" => Kind::Service,
        _ => Kind::Receiver,
    }
}

/// The kind that the field `kind` names with one of these words.
#[tactic(auto, unfolding(crate::specs::Words::kind_among))]
fn kind_among(alloc: Global, words: &[&str], body: &Value) -> Result<Kind, Unread>
    ensures { Gives result (kind_among (map (λ listed. listed.now) words.now) (view body.now)) }
{
    let value = required(alloc, "kind", body)?;
    let word = word_in(alloc, words, "kind", value)?;
    Ok(kind_named(word))
}

/// The kind of component that the field `kind` asks for: `activity`, `service` or `receiver`.
#[tactic(auto, unfolding(crate::specs::Words::kind_of, crate::specs::Words::kind_words))]
pub fn kind_of(alloc: Global, body: &Value) -> Result<Kind, Unread>
    ensures { Gives result (kind_of (view body.now)) }
{
    kind_among(alloc, &["activity", "service", "receiver"], body)
}

/// The kind of component that a pending intent reaches, from its field `kind`: `activity`, `broadcast` or `service`.
#[tactic(auto, unfolding(crate::specs::Words::pending_kind_of, crate::specs::Words::pending_words))]
pub fn pending_kind_of(alloc: Global, body: &Value) -> Result<Kind, Unread>
    ensures { Gives result (pending_kind_of (view body.now)) }
{
    kind_among(alloc, &["activity", "broadcast", "service"], body)
}

/// The flags whose names are listed, once or more often.
#[tactic(auto, unfolding(crate::specs::Words::pending_flags_listed))]
fn pending_flags_listed(names: &[&str]) -> PendingFlags
    ensures { result ≡ pending_flags_listed (map (λ name. name.now) names.now) }
{
    PendingFlags {
        one_shot: is_listed(names, "ONE_SHOT"),
        no_create: is_listed(names, "NO_CREATE"),
        cancel_current: is_listed(names, "CANCEL_CURRENT"),
        update_current: is_listed(names, "UPDATE_CURRENT"),
        immutable: is_listed(names, "IMMUTABLE"),
        mutable: is_listed(names, "MUTABLE"),
    }
}

/// The names of pending flags in values.
#[tactic(auto, unfolding(crate::specs::Words::pending_flag_names))]
fn names_in<'v>(alloc: Global, values: &'v [Value]) -> Result<Vec<&'v str>, Unread>
    ensures { GivesBy (λ names. map (λ name. name.now) names.items) result
        (words_in pending_flag_names (codes "flags") (map view values.now)) }
{
    words_in(
        alloc,
        &[
            "ONE_SHOT",
            "NO_CREATE",
            "CANCEL_CURRENT",
            "UPDATE_CURRENT",
            "IMMUTABLE",
            "MUTABLE",
        ],
        "flags",
        values,
    )
}

/// The flags that the field `flags` lists by name, 64 at most, each once or more often. The field is required.
#[tactic(auto, unfolding(crate::specs::Words::pending_flags_of))]
pub fn pending_flags_of(alloc: Global, body: &Value) -> Result<PendingFlags, Unread>
    ensures { Gives result (pending_flags_of (view body.now)) }
{
    let value = required(alloc, "flags", body)?;
    let values = list_in(alloc, "flags", value)?;
    let names = names_in(alloc, values)?;
    Ok(pending_flags_listed(&names))
}
