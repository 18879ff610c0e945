//! One frame and its response.
ghost use Rattle.std.specs.Prelude.{◌≡◌, ◌≤◌, List as Items, Err, Some, None, IfOk, IsUtf8, MatchOption, length, option_copied, slice_get};
ghost use Rattle.am_types.specs.Bounds.{longest_body};
ghost use Rattle.am_types.specs.declared.history.Entry.{Entry};
ghost use Rattle.am_frames.specs.FrameSpans.{frame_held};
ghost use Rattle.am_frames.specs.Head.{Frame};
ghost use Rattle.am_audit_answers.specs.Judging.{Asks, OnlyRunsOut};
ghost use Rattle.am_audit_answers.specs.Judged.{ComesTo, IsMakingOf, IsNextMaking, Judges, Stands, case_of, ground_of};
ghost use Rattle.am_audit_answers.specs.Marks.{SaysOnly};
ghost use Rattle.am_audit_answers.specs.Matching.{IsRecord, IsReplayed, MakesRequest};

use crate::calls::{Making, make_call};
use crate::marks::mark_in;
use crate::matching::is_its_call;
use crate::places::go_to;
use crate::requests::request_in;
use crate::texts::begins;
use am_audit_history::Replayed;
use am_frames::frame::WholeFrame;
use am_http::no_memory_before;
use am_types::{Entry, NoMemory, Request};
use am_wire_routes::Routes;
use std::alloc::Global;

/// A frame that was accepted: the history, replayed up to the least place of the next call, and how many bytes the
/// frame's response has.
#[derive(Drop)]
pub struct Accepted {
    pub replayed: Replayed,
    pub taken: usize,
}

// Accepts the frame by so many bytes, if any were found.
fn accept_by(replayed: Replayed, taken: Option<usize>) -> Option<Accepted>
    ensures { MatchOption result (taken ≡ None) (λ a. (a.replayed ≡ replayed) × (taken ≡ Some a.taken)) }
{
    match taken {
        Some(taken) => Some(Accepted { replayed, taken }),
        None => {
            drop(replayed);
            None
        }
    }
}

// A frame whose response can only say that memory ran out before its call.
fn judge_no_memory(replayed: Replayed, left: &[u8]) -> Option<Accepted>
    ensures { (history : Items Entry) (frame : Frame) → IsReplayed (ground_of history replayed) replayed
        → OnlyRunsOut (case_of history replayed frame left.now) → Judges (case_of history replayed frame left.now) result }
{
    let text = no_memory_before();
    if begins(left, text) {
        Some(Accepted {
            replayed,
            taken: text.len(),
        })
    } else {
        drop(replayed);
        None
    }
}

// A frame that makes no request: it is refused by this text, or memory ran out.
fn judge_refused(replayed: Replayed, text: &[u8], left: &[u8]) -> Option<Accepted>
    ensures { (history : Items Entry) (frame : Frame) → IsReplayed (ground_of history replayed) replayed
        → Asks frame (Err text.now) → Judges (case_of history replayed frame left.now) result }
{
    if begins(left, text) {
        Some(Accepted {
            replayed,
            taken: text.len(),
        })
    } else {
        judge_no_memory(replayed, left)
    }
}

// The call of a frame, made so at the end of the history that was replayed.
fn judge_made(
    alloc: Global,
    replayed: Replayed,
    making: Making,
    frame: &WholeFrame<'_>,
    request: Request,
    left: &[u8],
) -> Result<Option<Accepted>, NoMemory>
    requires { MakesRequest (frame_held frame.now) request }
    ensures { IfOk result (λ judged. ComesTo replayed (frame_held frame.now) request making left.now judged) }
{
    let (replayed, taken) = make_call(alloc, replayed, making, frame, request, left)?;
    Ok(accept_by(replayed, taken))
}

// The entry of the history after those that were replayed.
fn next_of<'h>(history: &'h [Entry], replayed: &Replayed) -> Option<&'h Entry>
    ensures { option_copied result ≡ slice_get history.now (length replayed.now.history) }
{
    history.get(replayed.length() as usize)
}

// How a call that is stored is made: as the next entry of the history was, if that is the frame's call.
fn next_making(
    alloc: Global,
    history: &[Entry],
    replayed: &Replayed,
    frame: &WholeFrame<'_>,
    request: &Request,
) -> Result<Option<Making>, NoMemory>
    requires stands { Stands history.now replayed.now }
    requires makes { MakesRequest (frame_held frame.now) request.now }
    ensures { IfOk result
        (λ making. IsNextMaking history.now replayed.now (frame_held frame.now) request.now making) }
{
    let next = match next_of(history, replayed) {
        Some(next) => next,
        None => return Ok(None),
    };
    match is_its_call(alloc, replayed, next, frame, request) {
        Ok(true) => Ok(Some(Making {
            desk: next.desk,
            now: next.now,
            stored: true,
        })),
        Ok(false) => Ok(None),
        Err(error) => Err(error),
    }
}

// How the call of a frame is made at the end of the history that was replayed, stored or not, if it can be.
fn making_of(
    alloc: Global,
    history: &[Entry],
    replayed: &Replayed,
    frame: &WholeFrame<'_>,
    request: &Request,
    stored: bool,
) -> Result<Option<Making>, NoMemory>
    requires stands { Stands history.now replayed.now }
    requires makes { MakesRequest (frame_held frame.now) request.now }
    ensures { IfOk result
        (λ making. IsMakingOf history.now replayed.now (frame_held frame.now) request.now stored making) }
{
    if stored {
        next_making(alloc, history, replayed, frame, request)
    } else {
        Ok(Some(Making {
            desk: 0,
            now: 0,
            stored: false,
        }))
    }
}

// The call of a frame at the end of the history that was replayed, stored or not.
fn judge_call(
    alloc: Global,
    history: &[Entry],
    replayed: Replayed,
    frame: &WholeFrame<'_>,
    request: Request,
    stored: bool,
    left: &[u8],
) -> Result<Option<Accepted>, NoMemory>
    requires stands { Stands history.now replayed }
    requires makes { MakesRequest (frame_held frame.now) request }
    requires says { SaysOnly left.now (length replayed.history) stored }
    ensures { IfOk result (λ judged. Judges (case_of history.now replayed (frame_held frame.now) left.now) judged) }
{
    match making_of(alloc, history, &replayed, frame, &request, stored) {
        Ok(Some(making)) => judge_made(alloc, replayed, making, frame, request, left),
        Ok(None) => {
            drop(request);
            drop(replayed);
            Ok(None)
        }
        Err(error) => {
            drop(request);
            drop(replayed);
            Err(error)
        }
    }
}

// A frame that makes this request: if its response says where its call was made, it is judged from that place on.
fn judge_request(
    alloc: Global,
    history: &[Entry],
    replayed: Replayed,
    frame: &WholeFrame<'_>,
    request: Request,
    left: &[u8],
) -> Result<Option<Accepted>, NoMemory>
    requires stands { Stands history.now replayed }
    requires makes { MakesRequest (frame_held frame.now) request }
    ensures { IfOk result (λ judged. Judges (case_of history.now replayed (frame_held frame.now) left.now) judged) }
{
    let mark = match mark_in(left) {
        Some(mark) => mark,
        None => {
            drop(request);
            return Ok(judge_no_memory(replayed, left));
        }
    };
    match go_to(history, replayed, mark.at) {
        Ok(Some(replayed)) => {
            judge_call(alloc, history, replayed, frame, request, mark.stored, left)
        }
        Ok(None) => {
            drop(request);
            Ok(None)
        }
        Err(error) => {
            drop(request);
            Err(error)
        }
    }
}

/// Judges a frame by the bytes that are left of the responses: if they begin with a response to it that the
/// history has after what was audited, how far that leads.
pub fn judge(
    alloc: Global,
    routes: &Routes,
    history: &[Entry],
    replayed: Replayed,
    frame: &WholeFrame<'_>,
    left: &[u8],
) -> Result<Option<Accepted>, NoMemory>
    requires record { IsRecord (ground_of history.now replayed) }
    requires first { IsReplayed (ground_of history.now replayed) replayed }
    requires key { IsUtf8 (frame_held frame.now).key }
    requires body { length (frame_held frame.now).body ≤ longest_body }
    ensures { IfOk result (λ judged. Judges (case_of history.now replayed (frame_held frame.now) left.now) judged) }
{
    match request_in(alloc, routes, frame) {
        Ok(Ok(request)) => judge_request(alloc, history, replayed, frame, request, left),
        Ok(Err(text)) => {
            let judged = judge_refused(replayed, text.as_slice(), left);
            drop(text);
            Ok(judged)
        }
        Err(error) => {
            drop(replayed);
            Err(error)
        }
    }
}
