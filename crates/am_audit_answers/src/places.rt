//! The history up to a place.
ghost use Rattle.std.specs.Prelude.{◌≡◌, ◌+◌, ◌<◌, IfOk, length};
ghost use Rattle.am_audit_answers.specs.Matching.{GoesTo, IsRecord, IsReplayed};

use am_audit_history::Replayed;
use am_types::{Entry, NoMemory};

// Replays the next entry of the history.
fn go_on(history: &[Entry], replayed: Replayed) -> Result<Replayed, NoMemory>
    requires record { IsRecord (record { start = replayed.start; history = history.now }) }
    requires first { IsReplayed (record { start = replayed.start; history = history.now }) replayed }
    requires more { length replayed.history < length history.now }
    ensures first { IfOk result (λ after. IsReplayed (record { start = replayed.start; history = history.now }) after) }
    ensures longer { IfOk result (λ after. length after.history ≡ length replayed.history + 1) }
{
    let at = replayed.length();
    match replayed.advance(&history[at as usize])? {
        Some(after) => Ok(after),
        None => unreachable!(),
    }
}

/// Replays the history up to a place, unless it is before the one that was reached, or after the history's end.
pub(crate) fn go_to(
    history: &[Entry],
    mut replayed: Replayed,
    at: u64,
) -> Result<Option<Replayed>, NoMemory>
    requires record { IsRecord (record { start = replayed.start; history = history.now }) }
    requires first { IsReplayed (record { start = replayed.start; history = history.now }) replayed }
    ensures { IfOk result
        (λ after. GoesTo (record { start = replayed.start; history = history.now }) replayed at after) }
{
    if at < replayed.length() || at > history.len() as u64 {
        drop(replayed);
        return Ok(None);
    }
    while replayed.length() < at {
        replayed = go_on(history, replayed)?;
    }
    Ok(Some(replayed))
}
