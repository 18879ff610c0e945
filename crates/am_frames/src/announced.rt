//! How long a frame is, as its head announces.
ghost use Rattle.am_frames.specs.Announced.{IsAnnounced};

use crate::frame::{MAX_FIELDS, MAX_HEAD};
use crate::length::body_length;
use httparse::Status;
use httparse::spans::{EMPTY_HEADER_SPAN, parse_request};

/// How long the first frame of some bytes is.
#[derive(Clone, Copy, Debug, PartialEq, Eq)]
pub enum Announced {
    /// The bytes end inside its head, so more of them may tell.
    Unknown,
    /// It has so many bytes with its body, of which some may be still to come.
    Known(usize),
    /// There is none: whatever follows, the bytes are refused.
    Refused,
}

/// How long the first frame of the bytes is, whatever follows them.
///
/// Once as many bytes are there, [`find_frame`](crate::frame::find_frame) finds that frame whole. It takes no memory.
pub fn announced_length(bytes: &[u8]) -> Announced
    ensures { IsAnnounced bytes.now result }
{
    let window = &bytes[..MAX_HEAD.min(bytes.len())];
    let mut headers = [EMPTY_HEADER_SPAN; MAX_FIELDS];
    match parse_request(window, &mut headers) {
        Ok(Status::Complete(head)) => {
            match body_length(head.method.of(bytes), bytes, &headers[..head.headers]) {
                Ok(body) => Announced::Known(head.len + body),
                Err(_) => Announced::Refused,
            }
        }
        Ok(Status::Partial) => {
            if window.len() == MAX_HEAD {
                Announced::Refused
            } else {
                Announced::Unknown
            }
        }
        Err(_) => Announced::Refused,
    }
}
