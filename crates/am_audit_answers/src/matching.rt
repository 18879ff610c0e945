//! Whether an entry of the history is a frame's call.
ghost use Rattle.std.specs.Prelude.{◌≡◌, ◌↔◌, IsTrue, IfOk, Some};
ghost use Rattle.am_history.specs.State.{uid_of};
ghost use Rattle.am_frames.specs.FrameSpans.{frame_held};
ghost use Rattle.am_audit_history.specs.Lines.{IsReadAgain};
ghost use Rattle.am_audit_history.specs.Replays.{state_of};
ghost use Rattle.am_audit_answers.specs.Matching.{IsItsCall, MakesRequest};

use am_audit_history::{Replayed, is_same_request};
use am_frames::frame::WholeFrame;
use am_types::{Entry, NoMemory, Request};
use std::alloc::Global;

// Whether this is the key of the caller with this uid, after the history that was replayed.
fn has_key(replayed: &Replayed, uid: u32, key: &[u8]) -> bool
    ensures { IsTrue result ↔ (uid_of (state_of replayed.now) key.now ≡ Some uid) }
{
    replayed.keys_are_known();
    match replayed.key_of(uid) {
        Some(known) => known.as_str().as_bytes() == key,
        None => false,
    }
}

/// Whether the entry is the call of a frame that makes this request, after the history that was replayed.
pub(crate) fn is_its_call(
    alloc: Global,
    replayed: &Replayed,
    next: &Entry,
    frame: &WholeFrame<'_>,
    request: &Request,
) -> Result<bool, NoMemory>
    requires makes { MakesRequest (frame_held frame.now) request.now }
    requires again { IsReadAgain next.now.request }
    ensures { IfOk result (λ is. IsTrue is
        ↔ IsItsCall (state_of replayed.now) (frame_held frame.now) request.now next.entry.now) }
{
    if next.weight as usize != frame.body.len() {
        return Ok(false);
    }
    if !has_key(replayed, next.uid, frame.key) {
        return Ok(false);
    }
    is_same_request(alloc, request, &next.request)
}
