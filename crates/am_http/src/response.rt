//! The bytes of responses.
ghost use Rattle.std.specs.Prelude.{◌≡◌, ◌+◌, ◌≤◌, ◌++◌, IfOk, length, string_bytes, option_copied, vec_len, vec_capacity};
ghost use Rattle.am_http.specs.Sessions.{defect_text};
ghost use Rattle.am_http.specs.Responses.{HasPhrase, phrase, head, digit, place_lines, message, response, refusal, no_memory_before, no_memory_at};

use am_frames::frame::Defect;
use am_types::{NoMemory, Shown};
use am_wire_replies::{error_text, reply_text};
use am_wire_values::reply_status;
use itoa::Buffer;
use std::alloc::{AllocError, Global};

/// The room that the response takes if memory ran out after the call was made, in bytes.
pub const NO_MEMORY_ROOM: usize = 192;

/// The response that shows a reply and its place in the history. It is the reply's own text, printed once, with the
/// lines put in front of it.
#[tactic(auto, using(crate::proofs::Phrases::every_status_has_a_phrase), unfolding(crate::specs::Responses::response))]
pub fn response_bytes(alloc: Global, shown: &Shown) -> Result<Vec<u8>, NoMemory>
    ensures { IfOk result (λ bytes. bytes.items ≡ response shown.now.at shown.now.stored shown.now.reply) }
{
    let body = reply_text(alloc, &shown.reply)?;
    let lines = place_lines(alloc, shown.at, shown.stored)?;
    let text = message(alloc, reply_status(&shown.reply), lines.as_str(), body)?;
    Ok(text.into_bytes())
}

/// The response that refuses a request before the manager is asked, for one of the statuses that
/// have a phrase. It says the error and, if there is one, the name of the part at fault.
#[tactic(auto, unfolding(crate::specs::Responses::refusal))]
pub fn refusal_bytes(
    alloc: Global,
    status: u16,
    error: &str,
    name: Option<&str>,
) -> Result<Vec<u8>, NoMemory>
    requires { HasPhrase status }
    ensures { IfOk result (λ bytes. bytes.items ≡ refusal status error.now (option_copied name.entry)) }
{
    let body = error_text(alloc, error, name)?;
    Ok(message(alloc, status, "", body)?.into_bytes())
}

// The body, with the lines of the head put in front. There is no second copy of it.
#[tactic(auto, unfolding(crate::specs::Responses::message))]
fn message(alloc: Global, status: u16, lines: &str, body: String) -> Result<String, AllocError>
    requires { HasPhrase status }
    ensures { IfOk result (λ text. string_bytes text ≡ message status lines.now (string_bytes body)) }
{
    let head = head(alloc, status, body.len())?;
    let front = format!(in alloc; "{head}{lines}\r\n")?;
    let mut text = body;
    text.insert_str(0, front.as_str())?;
    Ok(text)
}

#[tactic(auto, unfolding(crate::specs::Responses::head))]
fn head(alloc: Global, status: u16, body_length: usize) -> Result<String, AllocError>
    requires { HasPhrase status }
    ensures { IfOk result (λ text. string_bytes text ≡ head status body_length) }
{
    let phrase = phrase(status);
    format!(in alloc;
        "HTTP/1.1 {status} {phrase}\r\nContent-Type: application/json\r\nContent-Length: {body_length}\r\n"
    )
}

#[tactic(auto, unfolding(crate::specs::Responses::place_lines))]
fn place_lines(alloc: Global, at: u64, stored: bool) -> Result<String, AllocError>
    ensures { IfOk result (λ text. string_bytes text ≡ place_lines at stored) }
{
    let stored = digit(stored);
    format!(in alloc; "AM-At: {at}\r\nAM-Stored: {stored}\r\n")
}

#[tactic(auto, unfolding(crate::specs::Responses::digit))]
fn digit(truth: bool) -> &'static str
    ensures text { result.now ≡ digit truth }
    ensures one { length result.now ≡ 1 }
{
    if truth { "1" } else { "0" }
}

#[tactic(auto, unfolding(crate::specs::Responses::phrase))]
fn phrase(status: u16) -> &'static str
    requires { HasPhrase status }
    ensures { result.now ≡ phrase status }
{
    match status {
        200 => "OK",
        300 => "Multiple Choices",
        400 => "Bad Request",
        401 => "Unauthorized",
        403 => "Forbidden",
        404 => "Not Found",
        405 => "Method Not Allowed",
        409 => "Conflict",
        410 => "Gone",
        411 => "Length Required",
        413 => "Payload Too Large",
        422 => "Unprocessable Entity",
        429 => "Too Many Requests",
        431 => "Request Header Fields Too Large",
        501 => "Not Implemented",
        503 => "Service Unavailable",
        507 => "Insufficient Storage",
        _ => unreachable!(),
    }
}

/// The text for a defect of a frame, which ends a connection. Takes no memory.
#[tactic(auto, unfolding(crate::proofs::Literals::responses_on_literals))]
pub fn defect_bytes(defect: Defect) -> &'static [u8]
    ensures { result.now ≡ defect_text defect }
{
    match defect {
        Defect::BadHead => {
            b"HTTP/1.1 400 Bad Request\r\nContent-Type: application/json\r\nContent-Length: 20\r\n\r\n{\"error\":\"bad_head\"}"
        }
        Defect::HeadTooLarge => {
            b"HTTP/1.1 431 Request Header Fields Too Large\r\nContent-Type: application/json\r\nContent-Length: 26\r\n\r\n{\"error\":\"head_too_large\"}"
        }
        Defect::TransferEncoding => {
            b"HTTP/1.1 501 Not Implemented\r\nContent-Type: application/json\r\nContent-Length: 29\r\n\r\n{\"error\":\"transfer_encoding\"}"
        }
        Defect::LengthRequired => {
            b"HTTP/1.1 411 Length Required\r\nContent-Type: application/json\r\nContent-Length: 27\r\n\r\n{\"error\":\"length_required\"}"
        }
        Defect::BodyTooLarge => {
            b"HTTP/1.1 413 Payload Too Large\r\nContent-Type: application/json\r\nContent-Length: 26\r\n\r\n{\"error\":\"body_too_large\"}"
        }
    }
}

/// The response if memory ran out before the call was made. Takes no memory.
#[tactic(auto, unfolding(crate::proofs::Literals::responses_on_literals))]
pub fn no_memory_before() -> &'static [u8]
    ensures { result.now ≡ no_memory_before }
{
    b"HTTP/1.1 507 Insufficient Storage\r\nContent-Type: application/json\r\nContent-Length: 21\r\nAM-Stored: 0\r\n\r\n{\"error\":\"no_memory\"}"
}

/// Replaces what the vector holds by the response if memory ran out after the call was made.
/// Takes no memory.
pub fn put_no_memory_at(into: &mut Vec<u8>, at: u64, stored: bool)
    requires { NO_MEMORY_ROOM ≤ vec_capacity into.old }
    ensures text { into.new.items ≡ no_memory_at at stored }
    ensures capacity { vec_capacity into.new ≡ vec_capacity into.old }
{
    into.clear();
    put(
        into,
        b"HTTP/1.1 507 Insufficient Storage\r\nContent-Type: application/json\r\nContent-Length: 21\r\nAM-At: ",
    );
    let mut buffer = Buffer::new();
    put(into, buffer.format(at).as_bytes());
    put(into, b"\r\nAM-Stored: ");
    put(into, digit(stored).as_bytes());
    put(into, b"\r\n\r\n{\"error\":\"no_memory\"}");
}

// Adds the bytes to a vector that has room for them.
fn put(into: &mut Vec<u8>, bytes: &[u8])
    requires { vec_len into.old + length bytes.now ≤ vec_capacity into.old }
    ensures items { into.new.items ≡ into.old.items ++ bytes.now }
    ensures len { vec_len into.new ≡ vec_len into.old + length bytes.now }
    ensures capacity { vec_capacity into.new ≡ vec_capacity into.old }
{
    for byte in bytes {
        into.push_reserved(*byte);
    }
}
