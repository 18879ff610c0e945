//! The frames of a connection, one after the other.
ghost use Rattle.std.specs.Prelude.{◌≡◌, ◌<◌, IfOk, length, if◌then◌else◌};
ghost use Rattle.am_history.specs.State.{opening};
ghost use Rattle.am_model.specs.Sound.{IsSound};
ghost use Rattle.am_http.specs.Sessions.{most_frames};
ghost use Rattle.am_audit_answers.specs.Matching.{IsRecord, IsReplayed};
ghost use Rattle.am_audit_frames.specs.Verdicts.{IsVerdict, Transcript};
ghost use Rattle.am_audit_frames.specs.Walks.{GoesOn, Walked, ground_at};

use crate::endings::may_end;
use am_audit_answers::judge;
use am_audit_history::Replayed;
use am_frames::frame::{Framing, frame};
use am_http::MAX_FRAMES;
use am_types::{Device, Entry, NoMemory};
use am_wire_routes::Routes;
use std::alloc::Global;

/// The verdict of an audit.
#[derive(Clone, Copy, Debug, PartialEq, Eq)]
pub enum Verdict {
    /// The responses are those to all frames, of which there are this many.
    Whole(u32),
    /// They are so for only this many first frames, or the connection doesn't end so.
    UpTo(u32),
}

// How far the audit of a connection has come.
#[derive(Drop)]
struct Walk<'t> {
    // The history, replayed up to the least place of the next call.
    replayed: Replayed,
    // What is left of the frames and of the responses.
    input: &'t [u8],
    left: &'t [u8],
    count: u32,
}

// The verdict if no further frame follows, by whether the responses end here.
fn ended(count: u32, is_end: bool) -> Verdict
    ensures { result ≡ (if is_end then Verdict.Whole count else Verdict.UpTo count) }
{
    if is_end {
        Verdict::Whole(count)
    } else {
        Verdict::UpTo(count)
    }
}

// Goes on with the next frame, or gives the verdict.
fn next_frame<'t>(
    alloc: Global,
    routes: &Routes,
    history: &[Entry],
    walk: Walk<'t>,
) -> Result<Result<Walk<'t>, Verdict>, NoMemory>
    requires record { IsRecord (ground_at history.now walk) }
    requires first { IsReplayed (ground_at history.now walk) walk.replayed }
    requires room { walk.count < most_frames }
    ensures { IfOk result (λ next. (t : Transcript) → Walked (ground_at history.now walk.entry) t walk.entry
        → GoesOn (ground_at history.now walk.entry) t walk.entry next) }
{
    let Walk {
        replayed,
        input,
        left,
        count,
    } = walk;
    let Framing::Whole(frame) = frame(input) else {
        drop(replayed);
        return Ok(Err(ended(count, may_end(input, left))));
    };
    let Some(accepted) = judge(alloc, routes, history, replayed, &frame, left)? else {
        return Ok(Err(Verdict::UpTo(count)));
    };
    let input = &input[frame.length..];
    let left = &left[accepted.taken..];
    if frame.close {
        drop(accepted.replayed);
        return Ok(Err(ended(count + 1, left.is_empty())));
    }
    Ok(Ok(Walk {
        replayed: accepted.replayed,
        input,
        left,
        count: count + 1,
    }))
}

/// Checks the responses of a connection against a history of a sound device, from its opening, that could have been
/// made.
pub fn audit_frames(
    alloc: Global,
    device: Device,
    history: &[Entry],
    frames: &[u8],
    responses: &[u8],
) -> Result<Verdict, NoMemory>
    requires sound { IsSound device }
    requires record { IsRecord (record { start = opening device; history = history.now }) }
    ensures { IfOk result (λ verdict. IsVerdict
        (record { start = opening device; history = history.now })
        (record { frames = frames.now; responses = responses.now })
        verdict) }
{
    let routes = Routes::new(alloc)?;
    let replayed = Replayed::begin(alloc, device)?;
    let mut walk = Walk {
        replayed,
        input: frames,
        left: responses,
        count: 0,
    };
    while walk.count < MAX_FRAMES {
        match next_frame(alloc, &routes, history, walk)? {
            Ok(after) => walk = after,
            Err(verdict) => return Ok(verdict),
        }
    }
    Ok(ended(walk.count, walk.left.is_empty()))
}
