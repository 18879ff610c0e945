//! The numbers of an entry.
ghost use Rattle.std.specs.Prelude.{◌≡◌, ◌<◌, ◌^◌, ℕ, Some};
ghost use Rattle.serde_json.specs.View.{view};
ghost use Rattle.am_types.specs.declared.history.Entry.{Entry};
ghost use Rattle.am_wire_values.specs.Replies.{entry_data};
ghost use Rattle.am_audit_history.specs.Lines.{HasRanges, number_in};

use serde_json::Value;

/// The numbers of an entry, except its own.
#[derive(Clone, Copy)]
pub(crate) struct Numbers {
    pub(crate) desk: u32,
    pub(crate) uid: u32,
    pub(crate) now: u64,
    pub(crate) weight: u32,
}

// The number that a field says.
fn number_in(value: &Value, name: &str) -> Option<u64>
    ensures { result ≡ number_in name.now (view value.now) }
{
    value.get(name).and_then(Value::as_u64)
}

// The number of at most 32 bits that a field says.
fn small_in(value: &Value, name: &str) -> Option<u32>
    ensures { (n : ℕ) → n < 2 ^ 32 → number_in name.now (view value.now) ≡ Some n → result ≡ Some n }
{
    u32::try_from(number_in(value, name)?).ok()
}

/// The numbers of the entry that a value says. Takes no memory.
#[tactic(auto, unfolding(am_wire_values::specs::Replies::entry_data))]
pub(crate) fn numbers_in(value: &Value) -> Option<Numbers>
    ensures { (at : ℕ) (entry : Entry) → view value.now ≡ entry_data at entry → HasRanges entry
        → result ≡ Some (record { desk = entry.desk; uid = entry.uid; now = entry.now; weight = entry.weight }) }
{
    Some(Numbers {
        desk: small_in(value, "desk")?,
        uid: small_in(value, "uid")?,
        now: number_in(value, "now")?,
        weight: small_in(value, "weight")?,
    })
}
