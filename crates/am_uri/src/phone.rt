//! The parts of a URI as a phone takes them.
ghost use Rattle.std.specs.Prelude.{◌≡◌, ◌++◌, IfOk, IsTrue, option_map, if◌then◌else◌, not, Some, None, false};
ghost use Rattle.std.specs.Char.{is_ascii_digit};
ghost use Rattle.std.specs.List.{list_all, position_or_len, take_while};
ghost use Rattle.am_model.specs.Uris.{ends_path, has_authority, marked_from, path_text, phone_authority_in, phone_behind_authority, phone_decoded, phone_ends_authority, phone_host_of, phone_parts, phone_path_text, phone_port_in, phone_port_of, phone_port_text, phone_without_port, port_of};
ghost use Rattle.am_uri.specs.Parts.{both};

use crate::uri::{before_query, begins_with_digits, has_digits_alone, path_of, server_of};
use am_types::{Text, UriParts};
use percent_encoding::percent_decode;
use std::alloc::{AllocError, Global};

/// The greatest port, of 31 bits.
const MAX_PORT: u32 = 2_147_483_647;

/// What stands for a bad escape: a byte that no text has.
const BAD: u8 = 255;

/// The host, the port and the path of a URI's rest. The authority ends at a backslash too, and the path begins there.
/// The port is what follows the authority's last colon, if that is digits alone: none if it is empty or over 31 bits.
/// Host and path are percent-decoded; a bad escape, and bytes that aren't UTF-8, become U+FFFD. (AOSP
/// `Uri.StringUri.parseAuthority` and `parsePath`, `Uri.AbstractHierarchicalUri.parseHost` and `parsePort`,
/// `UriCodec.decode`; how much of the text a bad escape takes is (own).)
pub(crate) fn phone_parts(alloc: Global, rest: &str) -> Result<UriParts, AllocError>
    ensures { IfOk result (λ parts. parts ≡ phone_parts rest.now) }
{
    Ok(UriParts {
        host: host_of(alloc, rest)?,
        port: port_in(rest),
        path: decoded(alloc, path_text(rest))?,
    })
}

/// The host, if there is an authority.
fn host_of(alloc: Global, rest: &str) -> Result<Option<Text>, AllocError>
    ensures { IfOk result (λ host. host ≡ phone_host_of rest.now) }
{
    match split_authority(rest) {
        None => Ok(None),
        Some((authority, _)) => {
            let (front, _) = split_port(authority);
            Ok(Some(decoded(alloc, server_of(front))?))
        }
    }
}

/// The port of the authority, if it has one.
fn port_in(rest: &str) -> Option<u32>
    ensures { result ≡ phone_port_in rest.now }
{
    let (authority, _) = split_authority(rest)?;
    let (_, digits) = split_port(authority);
    read_port(digits)
}

/// The authority, which follows two slashes, and the text after it.
fn split_authority(rest: &str) -> Option<(&str, &str)>
    ensures { option_map both result
        ≡ (if has_authority rest.now then Some (phone_authority_in rest.now, phone_behind_authority rest.now) else None) }
{
    let behind = rest.strip_prefix("//")?;
    Some(behind.split_at(authority_len(behind)))
}

fn authority_len(text: &str) -> usize
    ensures { result ≡ position_or_len phone_ends_authority text.now }
{
    text.bytes()
        .position(|b| b == b'/' || b == b'?' || b == b'#' || b == b'\\')
        .unwrap_or(text.len())
}

/// What is before the last colon, and the digits behind it, if only digits follow that colon.
fn split_port(authority: &str) -> (&str, &str)
    ensures value { both result ≡ (phone_without_port authority.now, phone_port_text authority.now) }
    ensures digits { IsTrue (list_all is_ascii_digit result.1.now) }
{
    match authority.rsplit_once(':') {
        Some(cut) if has_digits_alone(cut.1) => cut,
        _ => (authority, ""),
    }
}

/// The number that the digits write, if there are any and it isn't too great.
fn read_port(digits: &str) -> Option<u32>
    requires { IsTrue (list_all is_ascii_digit digits.now) }
    ensures { result ≡ phone_port_of (port_of digits.now) }
{
    let port = digits.parse().ok()?;
    if port <= MAX_PORT { Some(port) } else { None }
}

/// The path as it is written, which is empty in an opaque rest.
fn path_text(rest: &str) -> &str
    ensures { result.now ≡ phone_path_text rest.now }
{
    match split_authority(rest) {
        Some((_, behind)) => before_query(behind),
        None => path_of(rest),
    }
}

/// The text that the escapes stand for.
fn decoded(alloc: Global, text: &str) -> Result<Text, AllocError>
    ensures { IfOk result (λ decoded. decoded ≡ phone_decoded text.now) }
{
    let bytes = marked(alloc, text.as_bytes())?;
    let text = percent_decode(bytes.as_slice()).decode_utf8_lossy(alloc)?;
    Ok(Text::new(text.into_owned(alloc)?))
}

/// The bytes with each bad escape, and the digit that may belong to it, as one that no text has.
fn marked(alloc: Global, text: &[u8]) -> Result<Vec<u8>, AllocError>
    ensures { IfOk result (λ bytes. bytes.items ≡ marked_from false text.now) }
{
    let mut bytes = Vec::with_capacity(alloc, text.len())?;
    let mut bad = false;
    for (i, b) in text.iter().enumerate() {
        if bad && b.is_ascii_hexdigit() {
            bad = false;
        } else {
            bad = *b == b'%' && !begins_with_digits(&text[i + 1..]);
            bytes.push(if bad { BAD } else { *b })?;
        }
    }
    Ok(bytes)
}
