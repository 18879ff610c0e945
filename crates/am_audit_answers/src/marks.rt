//! The place that a response gives for its call.
ghost use Rattle.std.specs.Prelude.{◌≡◌, ◌<◌, ◌^◌, ◌++◌, ◌==◌, ℕ, Bool, List as Items, Some, None, codes, decimal};
ghost use Rattle.std.specs.List.{after_first, before_first, position};
ghost use Rattle.am_http.specs.Responses.{digit, place_lines};
ghost use Rattle.am_audit_answers.specs.Marks.{HasMark, HasNoMark};

use std::str;

/// The place that a response gives, and whether its call is stored there.
#[derive(Clone, Copy)]
pub(crate) struct Mark {
    pub(crate) at: u64,
    pub(crate) stored: bool,
}

// The place of the first such byte.
fn first_at(bytes: &[u8], wanted: u8) -> Option<usize>
    ensures { result ≡ position (λ b. b == wanted) bytes.now }
{
    bytes.iter().position(|byte| *byte == wanted)
}

// What follows the first newline; nothing if there is none.
fn behind_line(bytes: &[u8]) -> &[u8]
    ensures { result.now ≡ after_first (λ b. b == 10) bytes.now }
{
    match first_at(bytes, b'\n') {
        Some(at) => &bytes[at + 1..],
        None => &bytes[bytes.len()..],
    }
}

// What is before the first carriage return; all if there is none.
fn before_return(bytes: &[u8]) -> &[u8]
    ensures { result.now ≡ before_first (λ b. b == 13) bytes.now }
{
    match first_at(bytes, b'\r') {
        Some(at) => &bytes[..at],
        None => bytes,
    }
}

// The number that the bytes stand for.
fn number_of(bytes: &[u8]) -> Option<u64>
    ensures { (n : ℕ) → n < 2 ^ 64 → bytes.now ≡ decimal n → result ≡ Some n }
{
    match str::from_utf8(bytes) {
        Ok(text) => text.parse().ok(),
        Err(_) => None,
    }
}

// Whether the call is stored, by what follows the number of its place.
fn stored_in(behind: &[u8]) -> Option<bool>
    ensures { (stored : Bool) (rest : Items ℕ) → behind.now ≡ codes "\r\nAM-Stored: " ++ (digit stored ++ rest)
        → result ≡ Some stored }
{
    let digit = behind.strip_prefix(b"\r\nAM-Stored: ")?;
    Some(digit.starts_with(b"1"))
}

// The mark with which lines begin.
fn mark_at(lines: &[u8]) -> Option<Mark>
    ensures marked { (at : ℕ) (stored : Bool) (rest : Items ℕ) → at < 2 ^ 64 → lines.now ≡ place_lines at stored ++ rest
        → result ≡ Some (record { at = at; stored = stored }) }
    ensures unmarked { (rest : Items ℕ) → lines.now ≡ codes "AM-Stored: 0\r\n" ++ rest → result ≡ None }
{
    let place = lines.strip_prefix(b"AM-At: ")?;
    let number = before_return(place);
    let at = number_of(number)?;
    let stored = stored_in(&place[number.len()..])?;
    Some(Mark { at, stored })
}

/// The mark of the response with which the bytes begin, after the three lines with which each begins. Takes
/// no memory.
pub(crate) fn mark_in(bytes: &[u8]) -> Option<Mark>
    ensures marked { (at : ℕ) (stored : Bool) → HasMark bytes.now at stored
        → result ≡ Some (record { at = at; stored = stored }) }
    ensures unmarked { HasNoMark bytes.now → result ≡ None }
{
    mark_at(behind_line(behind_line(behind_line(bytes))))
}
