//! The call of a frame, made at the end of a history.
ghost use Rattle.std.specs.Prelude.{IfOk};
ghost use Rattle.am_frames.specs.FrameSpans.{frame_held};
ghost use Rattle.am_http.specs.Requests.{call_of};
ghost use Rattle.am_audit_answers.specs.Judged.{IsMade, ShowsAs, ShowsFirst};
ghost use Rattle.am_audit_answers.specs.Matching.{MakesRequest};

use crate::texts::{begins, no_memory_at};
use am_audit_history::{Call, Replayed};
use am_frames::frame::WholeFrame;
use am_http::{key_text, response_bytes};
use am_types::{NoMemory, Request, Shown};
use std::alloc::Global;

/// How a call is made: its desk, its moment, and whether it is to be stored.
#[derive(Clone, Copy)]
pub(crate) struct Making {
    pub(crate) desk: u32,
    pub(crate) now: u64,
    pub(crate) stored: bool,
}

// How many bytes the response has that shows this, or that says that memory ran out after it, if the bytes
// begin with it.
fn shown_length(alloc: Global, shown: &Shown, left: &[u8]) -> Result<Option<usize>, NoMemory>
    ensures { IfOk result (λ length. ShowsFirst shown.now left.now length) }
{
    let response = response_bytes(alloc, shown)?;
    if begins(left, response.as_slice()) {
        return Ok(Some(response.len()));
    }
    let text = no_memory_at(alloc, shown.at, shown.stored)?;
    if begins(left, text.as_slice()) {
        Ok(Some(text.len()))
    } else {
        Ok(None)
    }
}

// The same of what is shown of a call, if it is stored or not as was said.
fn length_as(
    alloc: Global,
    stored: bool,
    shown: &Shown,
    left: &[u8],
) -> Result<Option<usize>, NoMemory>
    ensures { IfOk result (λ taken. ShowsAs stored shown.now left.now taken) }
{
    if shown.stored == stored {
        shown_length(alloc, shown, left)
    } else {
        Ok(None)
    }
}

/// Makes the call of a frame with this request at the end of the history that was replayed. Answers the history
/// after it, and how many bytes show the call, if it is stored or not as was said.
pub(crate) fn make_call(
    alloc: Global,
    replayed: Replayed,
    making: Making,
    frame: &WholeFrame<'_>,
    request: Request,
    left: &[u8],
) -> Result<(Replayed, Option<usize>), NoMemory>
    requires { MakesRequest (frame_held frame.now) request }
    ensures { IfOk result (λ made. IsMade replayed (call_of making.desk (frame_held frame.now) making.now request)
        making.stored left.now made) }
{
    let key = match key_text(alloc, frame.key) {
        Ok(key) => key,
        Err(error) => {
            drop(request);
            drop(replayed);
            return Err(error);
        }
    };
    let weight = frame.body.len() as u32;
    let call = Call {
        desk: making.desk,
        key: &key,
        now: making.now,
        weight,
        request,
    };
    let (replayed, shown) = replayed.call(call)?;
    let taken = length_as(alloc, making.stored, &shown, left);
    drop(shown);
    match taken {
        Ok(taken) => Ok((replayed, taken)),
        Err(error) => {
            drop(replayed);
            Err(error)
        }
    }
}
