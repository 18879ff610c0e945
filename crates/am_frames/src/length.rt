//! The length of a frame's body.
ghost use Rattle.std.specs.Prelude.{◌≡◌, ℕ, List, length, All, IsTrue, codes, bytes_eq};
ghost use Rattle.std.specs.Str.Parse.{digits_value};
ghost use Rattle.httparse.specs.Spans.{IsHeaderWithin};
ghost use Rattle.am_frames.specs.Fields.{is_length, stated_length, length_by, body_length};
ghost use Rattle.am_frames.specs.FrameSpans.{headers_at, IsNamedBy, IsNamedWithin};

use crate::fields::{Named, find_named};
use crate::frame::{Defect, MAX_BODY};
use httparse::spans::HeaderSpan;

/// The most digits that a length may have.
const MAX_DIGITS: usize = 19;

fn is_length(value: &[u8]) -> bool
    ensures { result ≡ is_length value.now }
{
    if value.is_empty() || value.len() > MAX_DIGITS {
        return false;
    }
    value.iter().all(|b| b.is_ascii_digit())
}

/// The number that the digits stand for.
fn decimal(digits: &[u8]) -> usize
    requires { IsTrue (is_length digits.now) }
    ensures { result ≡ digits_value 10 digits.now }
{
    let mut number: usize = 0;
    for digit in digits {
        number = number * 10 + (*digit - b'0') as usize;
    }
    number
}

fn stated_length(value: &[u8]) -> Result<usize, Defect>
    ensures { result ≡ stated_length value.now }
{
    if !is_length(value) {
        return Err(Defect::BadHead);
    }
    let length = decimal(value);
    if length > MAX_BODY {
        Err(Defect::BodyTooLarge)
    } else {
        Ok(length)
    }
}

fn is_post(method: &[u8]) -> bool
    ensures { result ≡ bytes_eq method.now (codes "POST") }
{
    method == b"POST".as_slice()
}

fn length_by(method: &[u8], bytes: &[u8], lengths: Named) -> Result<usize, Defect>
    requires { IsNamedWithin (length bytes.now) lengths }
    ensures { (values : List (List ℕ)) → IsNamedBy bytes.now values lengths
        → result ≡ length_by method.now values }
{
    match lengths {
        Named::Absent => {
            if is_post(method) {
                Err(Defect::LengthRequired)
            } else {
                Ok(0)
            }
        }
        Named::Once(value) => stated_length(value.of(bytes)),
        Named::Repeated(_) => Err(Defect::BadHead),
    }
}

/// The length of the body that the head announces, in bytes, or the head's first defect.
pub(crate) fn body_length(
    method: &[u8],
    bytes: &[u8],
    headers: &[HeaderSpan],
) -> Result<usize, Defect>
    requires { All (IsHeaderWithin (length bytes.now)) headers.now }
    ensures { result ≡ body_length method.now (headers_at bytes.now headers.now) }
{
    match find_named(bytes, headers, b"Transfer-Encoding") {
        Named::Absent => length_by(method, bytes, find_named(bytes, headers, b"Content-Length")),
        _ => Err(Defect::TransferEncoding),
    }
}
