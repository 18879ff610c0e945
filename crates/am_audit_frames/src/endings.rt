//! How a connection may end.
ghost use Rattle.std.specs.Prelude.{◌≡◌, ◌↔◌, IsTrue};
ghost use Rattle.am_frames.specs.Head.{Outcome};
ghost use Rattle.am_frames.specs.Framing.{HasNoHead, IsFraming, window};
ghost use Rattle.am_audit_frames.specs.Streams.{IsLast, IsWrittenAt, IsWrittenAtDead, MayBeDead, waiting_text};

use crate::target::may_overlook;
use am_frames::frame::{Defect, Found, MAX_FIELDS, MAX_HEAD, find_frame};
use am_http::defect_bytes;
use httparse::Status;
use httparse::spans::{EMPTY_HEADER_SPAN, parse_request};

// The bytes that are looked at for a head.
fn window(input: &[u8]) -> &[u8]
    ensures { result.now ≡ window input.now }
{
    &input[..MAX_HEAD.min(input.len())]
}

// Whether no head of at most 64 fields begins the window.
fn has_no_head(window: &[u8]) -> bool
    ensures { IsTrue result ↔ HasNoHead window.now }
{
    let mut headers = [EMPTY_HEADER_SPAN; MAX_FIELDS];
    match parse_request(window, &mut headers) {
        Ok(Status::Complete(_)) => false,
        Ok(Status::Partial) => true,
        Err(_) => true,
    }
}

// Whether a reader may see no whole head if none can follow, or may not see that yet.
fn may_be_dead(input: &[u8]) -> bool
    ensures { IsTrue result ↔ MayBeDead input.now }
{
    let window = window(input);
    has_no_head(window) && may_overlook(window)
}

// What is written if a reader waits for bytes that don't come, or for which the window has no room.
fn waiting_text(input: &[u8]) -> &'static [u8]
    ensures { result.now ≡ waiting_text (window input.now) }
{
    if input.len() >= MAX_HEAD {
        defect_bytes(Defect::HeadTooLarge)
    } else {
        b""
    }
}

// Whether this is written last at the outcome that is found.
fn is_found_text(input: &[u8], left: &[u8]) -> bool
    ensures { (outcome : Outcome) × IsFraming input.now outcome × (IsTrue result ↔ IsWrittenAt outcome left.now) }
{
    match find_frame(input) {
        Found::Whole(_) => false,
        Found::Empty => left.is_empty(),
        Found::Refused(defect) => left == defect_bytes(defect),
        Found::Cut => left.is_empty(),
    }
}

// Whether this may be written last at a window that may be dead.
fn is_dead_text(input: &[u8], left: &[u8]) -> bool
    ensures { IsTrue result ↔ IsWrittenAtDead input.now left.now }
{
    left == defect_bytes(Defect::BadHead) || left == waiting_text(input)
}

/// Whether the bytes may be written last after an input without a further whole frame. Takes no memory.
pub(crate) fn may_end(input: &[u8], left: &[u8]) -> bool
    ensures { IsTrue result ↔ IsLast input.now left.now }
{
    is_found_text(input, left) || (may_be_dead(input) && is_dead_text(input, left))
}
