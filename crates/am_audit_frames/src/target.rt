//! Texts that end inside the target of a request, or that have many lines.
ghost use Rattle.std.specs.Prelude.{◌≡◌, ◌≢◌, ℕ, ◌<◌, ◌≤◌, ◌==◌, ◌↔◌, List as Items, ◌++◌, IsTrue, MatchOption, EachIndex, length, slice_index, count_by};
ghost use Rattle.httparse.specs.Ascii.{line_feed, space};
ghost use Rattle.httparse.specs.Grammar.{AllPass, EndsInTarget, LineEnd, is_uri_byte, print_blank, print_end};
ghost use Rattle.am_frames.specs.Framing.{MayOverlook};
ghost use Rattle.am_audit_frames.specs.Streams.{IsOpenLine};

use httparse::{is_token, is_uri_token};

/// The least number of lines of a text whose end a reader may overlook.
const MANY_LINES: usize = 65;

// The bytes after an empty line at the front.
fn behind_line(text: &[u8]) -> Option<&[u8]>
    ensures { MatchOption result
        ((end : LineEnd) (more : Items ℕ) → text.now ≢ print_end end ++ more)
        (λ rest. (end : LineEnd) × (text.now ≡ print_end end ++ rest.now)) }
{
    match text.strip_prefix(b"\r\n") {
        Some(rest) => Some(rest),
        None => text.strip_prefix(b"\n"),
    }
}

// The bytes after the empty lines at the front.
fn behind_blank(text: &[u8]) -> &[u8]
    ensures blank { (blank : Items LineEnd) × (text.now ≡ print_blank blank ++ result.now) }
    ensures all { (end : LineEnd) (more : Items ℕ) → result.now ≢ print_end end ++ more }
{
    let mut rest = text;
    while let Some(more) = behind_line(rest) {
        rest = more;
    }
    rest
}

// The place of the first space.
fn first_blank(line: &[u8]) -> Option<usize>
    ensures { MatchOption result
        (EachIndex line.now (λ k. slice_index line.now k ≢ space))
        (λ at. (at < length line.now) × (slice_index line.now at ≡ space)
        × ((k : ℕ) → k < at → slice_index line.now k ≢ space)) }
{
    line.iter().position(|byte| *byte == b' ')
}

// Whether all bytes may be in a target.
fn all_target(bytes: &[u8]) -> bool
    ensures { IsTrue result ↔ AllPass is_uri_byte bytes.now }
{
    bytes.iter().all(|byte| is_uri_token(*byte))
}

// Whether the line is a method, a space, and only bytes of a target.
fn is_open_line(line: &[u8]) -> bool
    ensures { IsTrue result ↔ IsOpenLine line.now }
{
    match first_blank(line) {
        Some(at) => is_token(&line[..at]) && all_target(&line[at + 1..]),
        None => false,
    }
}

// Whether the text ends inside a target: empty lines, a method, a space, and only bytes of a target.
fn ends_in_target(text: &[u8]) -> bool
    ensures { IsTrue result ↔ EndsInTarget text.now }
{
    is_open_line(behind_blank(text))
}

// Whether the text has many lines.
fn has_many_lines(text: &[u8]) -> bool
    ensures { IsTrue result ↔ (65 ≤ count_by (λ b. b == line_feed) text.now) }
{
    text.iter().filter(|byte| **byte == b'\n').count() >= MANY_LINES
}

/// Whether a reader may not see yet that no head follows. Takes no memory.
pub(crate) fn may_overlook(text: &[u8]) -> bool
    ensures { IsTrue result ↔ MayOverlook text.now }
{
    has_many_lines(text) || ends_in_target(text)
}
