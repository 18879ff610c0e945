//! The fields of a head, read by their spans.
ghost use Rattle.std.specs.Prelude.{◌≡◌, ◌≤◌, ℕ, [], length, reverse, All, if◌then◌else◌};
ghost use Rattle.std.specs.Str.{is_utf8};
ghost use Rattle.httparse.specs.Grammar.{skip_ows};
ghost use Rattle.httparse.specs.Spans.{IsWithin, IsHeaderWithin, span_bytes, header_bytes};
ghost use Rattle.am_frames.specs.Fields.{same_but_case, is_named, values_of, key_of, is_close, lists_close, connection_closes};
ghost use Rattle.am_frames.specs.FrameSpans.{headers_at, IsNamedBy, IsNamedWithin, with_value};

use httparse::is_space_or_tab;
use httparse::spans::{HeaderSpan, Span};

/// A span of no bytes.
const NOWHERE: Span = Span { start: 0, end: 0 };

/// How often a head has a field of some name, with where the first one's value is.
#[derive(Clone, Copy)]
pub(crate) enum Named {
    Absent,
    Once(Span),
    Repeated(Span),
}

impl Named {
    fn with(self, value: Span) -> Self
        ensures { result ≡ with_value self value }
    {
        match self {
            Self::Absent => Self::Once(value),
            Self::Once(first) => Self::Repeated(first),
            Self::Repeated(first) => Self::Repeated(first),
        }
    }
}

fn same_but_case(a: &[u8], b: &[u8]) -> bool
    ensures { result ≡ same_but_case a.now b.now }
{
    a.eq_ignore_ascii_case(b)
}

fn is_named(bytes: &[u8], header: &HeaderSpan, name: &[u8]) -> bool
    requires { IsHeaderWithin (length bytes.now) header.now }
    ensures { result ≡ is_named name.now (header_bytes bytes.now header.now) }
{
    same_but_case(header.name.of(bytes), name)
}

/// Looks for the fields with that name, in any case.
pub(crate) fn find_named(bytes: &[u8], headers: &[HeaderSpan], name: &[u8]) -> Named
    requires { All (IsHeaderWithin (length bytes.now)) headers.now }
    ensures values { IsNamedBy bytes.now
        (values_of name.now (headers_at bytes.now headers.now)) result }
    ensures within { (n : ℕ) → All (IsHeaderWithin n) headers.now → IsNamedWithin n result }
{
    let mut found = Named::Absent;
    for header in headers {
        if is_named(bytes, header, name) {
            found = found.with(header.value);
        }
    }
    found
}

fn is_text(value: &[u8]) -> bool
    ensures { result ≡ is_utf8 value.now }
{
    str::from_utf8(value).is_ok()
}

fn text_or_nowhere(bytes: &[u8], value: Span) -> Span
    requires { IsWithin (length bytes.now) value }
    ensures text { span_bytes bytes.now result
        ≡ (if is_utf8 (span_bytes bytes.now value) then span_bytes bytes.now value else []) }
    ensures within { (n : ℕ) → IsWithin n value → IsWithin n result }
{
    if is_text(value.of(bytes)) {
        value
    } else {
        NOWHERE
    }
}

/// Where the caller's key is: the first `AM-Key`, if that is text.
pub(crate) fn find_key(bytes: &[u8], headers: &[HeaderSpan]) -> Span
    requires { All (IsHeaderWithin (length bytes.now)) headers.now }
    ensures key { span_bytes bytes.now result ≡ key_of (headers_at bytes.now headers.now) }
    ensures within { (n : ℕ) → All (IsHeaderWithin n) headers.now → IsWithin n result }
{
    match find_named(bytes, headers, b"AM-Key") {
        Named::Absent => NOWHERE,
        Named::Once(value) => text_or_nowhere(bytes, value),
        Named::Repeated(value) => text_or_nowhere(bytes, value),
    }
}

fn trim_start(mut s: &[u8]) -> &[u8]
    ensures { result.now ≡ skip_ows s.now }
{
    while let [first, rest @ ..] = s
        && is_space_or_tab(*first)
    {
        s = rest;
    }
    s
}

fn trim_end(mut s: &[u8]) -> &[u8]
    ensures { result.now ≡ reverse (skip_ows (reverse s.now)) }
{
    while let [rest @ .., last] = s
        && is_space_or_tab(*last)
    {
        s = rest;
    }
    s
}

fn is_close(part: &[u8]) -> bool
    ensures { result ≡ is_close part.now }
{
    same_but_case(trim_end(trim_start(part)), b"close")
}

fn lists_close(value: &[u8]) -> bool
    ensures { result ≡ lists_close value.now }
{
    value.split(|b| *b == b',').any(is_close)
}

/// Whether any field `Connection` asks to close the connection.
pub(crate) fn connection_closes(bytes: &[u8], headers: &[HeaderSpan]) -> bool
    requires { All (IsHeaderWithin (length bytes.now)) headers.now }
    ensures { result ≡ connection_closes (headers_at bytes.now headers.now) }
{
    for header in headers {
        if is_named(bytes, header, b"Connection") && lists_close(header.value.of(bytes)) {
            return true;
        }
    }
    false
}
