//! The frames of a connection.
//!
//! A frame is the head of a request with the body that it announces. The finder looks for a head in
//! the first [`MAX_HEAD`] bytes and allocates nothing. What it calls whole or refused stays so when
//! more bytes come, so a reader may ask it after each piece.
ghost use Rattle.std.specs.Prelude.{◌≡◌, ◌≤◌, ◌==◌, ◌||◌, ◌↔◌, ℕ, [], length, All};
ghost use Rattle.httparse.specs.Spans.{IsWithin, IsHeaderWithin, span_bytes};
ghost use Rattle.am_frames.specs.Fields.{connection_closes};
ghost use Rattle.am_frames.specs.Head.{after_head};
ghost use Rattle.am_frames.specs.Framing.{IsFraming};
ghost use Rattle.am_frames.specs.FrameSpans.{outcome_at, outcome_held, IsFoundWithin, headers_at, head_at};

use crate::fields::{connection_closes, find_key};
use crate::length::body_length;
use httparse::Status;
use httparse::spans::{EMPTY_HEADER_SPAN, HeaderSpan, RequestSpans, Span, parse_request};

/// The most bytes that a head may have.
pub const MAX_HEAD: usize = 8_192;

/// The most fields that a head may have.
pub const MAX_FIELDS: usize = 64;

/// The most bytes that a body may have.
pub const MAX_BODY: usize = 65_536;

/// The most bytes that a frame may have: a head and a body of the greatest length.
pub const MAX_FRAME: usize = MAX_HEAD + MAX_BODY;

/// Why no frame can be read. Each of these ends the connection.
#[derive(Clone, Copy, Debug, PartialEq, Eq)]
pub enum Defect {
    /// No head can begin so, or its `Content-Length` isn't a length.
    BadHead,
    /// The first [`MAX_HEAD`] bytes hold no whole head.
    HeadTooLarge,
    /// The head has a field `Transfer-Encoding`.
    TransferEncoding,
    /// A `POST` states no length.
    LengthRequired,
    /// The body would be longer than [`MAX_BODY`].
    BodyTooLarge,
}

/// Where the parts of a frame are in the bytes that were searched.
#[derive(Clone, Copy)]
pub struct FrameSpans {
    pub method: Span,
    pub target: Span,
    /// The caller's key, which is empty where none is given or it isn't UTF-8.
    pub key: Span,
    pub body: Span,
    /// The peer asks to close the connection after the response.
    pub close: bool,
    /// How many bytes the frame has.
    pub length: usize,
}

impl FrameSpans {
    ghost use Rattle.am_frames.specs.FrameSpans.{IsFrameWithin, frame_at, frame_held};

    /// The frame, by slices of the bytes that were searched.
    pub fn of<'a>(&self, bytes: &'a [u8]) -> WholeFrame<'a>
        requires spans { IsFrameWithin self.now }
        requires fits { self.now.length ≤ length bytes.now }
        ensures { frame_held result ≡ frame_at bytes.now self.now }
    {
        WholeFrame {
            method: self.method.of(bytes),
            target: self.target.of(bytes),
            key: self.key.of(bytes),
            body: self.body.of(bytes),
            close: self.close,
            length: self.length,
        }
    }
}

/// The first frame of the bytes, by its spans.
#[derive(Clone, Copy)]
pub enum Found {
    Whole(FrameSpans),
    /// There are no bytes.
    Empty,
    Refused(Defect),
    /// The bytes end inside a frame.
    Cut,
}

/// A frame, by slices of the bytes that were searched.
#[derive(Clone, Copy, Debug, PartialEq, Eq)]
pub struct WholeFrame<'a> {
    pub method: &'a [u8],
    pub target: &'a [u8],
    /// The caller's key, which is empty where none is given or it isn't UTF-8.
    pub key: &'a [u8],
    pub body: &'a [u8],
    /// The peer asks to close the connection after the response.
    pub close: bool,
    /// How many bytes the frame has.
    pub length: usize,
}

/// The first frame of the bytes.
#[derive(Clone, Copy, Debug, PartialEq, Eq)]
pub enum Framing<'a> {
    Whole(WholeFrame<'a>),
    /// There are no bytes.
    Empty,
    Refused(Defect),
    /// The bytes end inside a frame.
    Cut,
}

fn asks_close(bytes: &[u8], headers: &[HeaderSpan], minor: u8) -> bool
    requires { All (IsHeaderWithin (length bytes.now)) headers.now }
    ensures { result ≡ ((minor == 0) || connection_closes (headers_at bytes.now headers.now)) }
{
    minor == 0 || connection_closes(bytes, headers)
}

/// What the bytes begin with, if they begin with this head.
fn frame_after(bytes: &[u8], headers: &[HeaderSpan], head: &RequestSpans) -> Found
    requires head { head.now.len ≤ length bytes.now }
    requires method { IsWithin head.now.len head.now.method }
    requires target { IsWithin head.now.len head.now.path }
    requires fields { All (IsHeaderWithin head.now.len) headers.now }
    ensures outcome { outcome_at bytes.now result
        ≡ after_head bytes.now (head_at bytes.now headers.now head.now) }
    ensures within { IsFoundWithin (length bytes.now) result }
{
    let length = match body_length(head.method.of(bytes), bytes, headers) {
        Ok(length) => length,
        Err(defect) => return Found::Refused(defect),
    };
    if bytes.len() - head.len < length {
        return Found::Cut;
    }
    let end = head.len + length;
    Found::Whole(FrameSpans {
        method: head.method,
        target: head.path,
        key: find_key(bytes, headers),
        body: Span {
            start: head.len,
            end,
        },
        close: asks_close(bytes, headers, head.version),
        length: end,
    })
}

/// The first frame of the bytes, taken as the whole input, by its spans.
///
/// Only the first [`MAX_HEAD`] bytes are looked at for a head. An input that is empty or
/// cut off may become a whole frame or be refused when more bytes come; the other answers stay.
pub fn find_frame(bytes: &[u8]) -> Found
    ensures framing { IsFraming bytes.now (outcome_at bytes.now result) }
    ensures empty { (result ≡ Found.Empty) ↔ (bytes.now ≡ []) }
    ensures within { IsFoundWithin (length bytes.now) result }
{
    if bytes.is_empty() {
        return Found::Empty;
    }
    let window = &bytes[..MAX_HEAD.min(bytes.len())];
    let mut headers = [EMPTY_HEADER_SPAN; MAX_FIELDS];
    match parse_request(window, &mut headers) {
        Ok(Status::Complete(head)) => frame_after(bytes, &headers[..head.headers], &head),
        Ok(Status::Partial) => {
            if window.len() == MAX_HEAD {
                Found::Refused(Defect::HeadTooLarge)
            } else {
                Found::Cut
            }
        }
        Err(_) => Found::Refused(Defect::BadHead),
    }
}

/// The first frame of the bytes, taken as the whole input, by slices of them.
///
/// It answers what [`find_frame`] answers.
pub fn frame(bytes: &[u8]) -> Framing<'_>
    ensures framing { IsFraming bytes.now (outcome_held result) }
    ensures empty { (result ≡ Framing.Empty) ↔ (bytes.now ≡ []) }
{
    match find_frame(bytes) {
        Found::Whole(found) => Framing::Whole(found.of(bytes)),
        Found::Empty => Framing::Empty,
        Found::Refused(defect) => Framing::Refused(defect),
        Found::Cut => Framing::Cut,
    }
}
