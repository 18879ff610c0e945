//! Reading a URI.
ghost use Rattle.std.specs.Prelude.{◌≡◌, IfOk, option_map, if◌then◌else◌, not, Some, None, Ok, Err};
ghost use Rattle.std.specs.Char.{is_ascii_digit};
ghost use Rattle.std.specs.List.{list_any, list_all, position_or_len, take_while};
ghost use Rattle.std.specs.Option.{option_copied};
ghost use Rattle.am_model.specs.Uris.{is_colon, has_scheme, scheme_in, rest_in, ends_authority, ends_path, has_authority, authority_in, behind_authority, server_in, has_port, host_in, port_text, is_port, port_of, path_text, begins_with_digits, is_escaped, is_port_good, host_of, port_in, uri_of};
ghost use Rattle.am_uri.specs.Answers.{IsUriAnswer};
ghost use Rattle.am_uri.specs.Parts.{both};
ghost use Rattle.am_uri.specs.Lent.{decoded, IsWritten, Serves, Decodes, uri_with};

use crate::phone::phone_parts;
use crate::scheme::is_scheme;
use am_types::{Text, Uri, UriFault, UriParts};
use percent_encoding::{DecodeError, percent_decode};
use std::alloc::{AllocError, Global};

/// The most bytes of a URI.
const MAX_LEN: usize = 1024;

/// The most digits of a port.
const MAX_DIGITS: usize = 5;

/// Reads a URI, which is a scheme, a colon and a rest (RFC 3986, section 3). A relative reference
/// isn't a URI (own). Takes time linear in the text; a text that is too long isn't read at all.
///
/// - A rest that doesn't begin with `/` is opaque: it has no host, no port and an empty path, and
///   isn't looked at any further (own; Android's `Uri` has opaque forms too).
/// - The authority follows `//`, up to the next `/`, `?` or `#`. Its host follows the last
///   `@`, as in Android's `Uri.getHost`, may be empty, and keeps its brackets. The port follows
///   the last colon after every `]`: at most five digits, so from 0 to 99,999; without digits there
///   is no port (own).
/// - The path runs from there to the next `?` or `#`. It is percent-decoded once, as in Android's
///   `Uri.getPath`, and no dots are removed from it. The query and the fragment are kept only in the
///   text.
///
/// The first fault that applies is `TooLong` over 1,024 bytes, `NoScheme`, `BadPort` if something
/// other than a port follows that colon, `BadEscape` if a percent sign of the path isn't
/// followed by two hexadecimal digits, and `NotUtf8` if the decoded path isn't UTF-8 (own:
/// Android's `Uri` refuses none of these). `NoMemory` comes only if the path is decoded.
///
/// These are the profile's parts. Beside them stand those that a phone takes from the same text, which may be others.
pub fn parse_uri(alloc: Global, text: &Text) -> Result<Uri, UriFault>
    ensures { IsUriAnswer (uri_of text.now) result }
{
    let parts = parts(text.as_str())?;
    uri_from(alloc, text, &parts)
}

/// The parts of a URI as they are written.
#[derive(Drop)]
struct Written<'a> {
    scheme: &'a str,
    rest: &'a str,
    host: Option<&'a str>,
    port: Option<u32>,
    path: &'a str,
}

#[tactic(auto, unfolding(am_model::specs::Uris::uri_of))]
fn parts(text: &str) -> Result<Written<'_>, UriFault>
    ensures { IsWritten text.now (uri_of text.now) result }
{
    if text.len() > MAX_LEN {
        return Err(UriFault::TooLong);
    }
    let Some((scheme, rest)) = split_scheme(text) else {
        return Err(UriFault::NoScheme);
    };
    let (host, port) = host_and_port(rest)?;
    let path = path_of(rest);
    if !is_escaped(path.as_bytes()) {
        return Err(UriFault::BadEscape);
    }
    Ok(Written {
        scheme,
        rest,
        host,
        port,
        path,
    })
}

/// The scheme and the text after its colon.
fn split_scheme(text: &str) -> Option<(&str, &str)>
    ensures { option_map both result
        ≡ (if has_scheme text.now then Some (scheme_in text.now, rest_in text.now) else None) }
{
    let (scheme, rest) = text.split_once(':')?;
    if is_scheme(scheme) {
        Some((scheme, rest))
    } else {
        None
    }
}

/// The host and the port, if there is an authority.
fn host_and_port(rest: &str) -> Result<(Option<&str>, Option<u32>), UriFault>
    ensures { Serves rest.now result }
{
    let Some((authority, _)) = split_authority(rest) else {
        return Ok((None, None));
    };
    let (host, digits) = split_port(server_of(authority));
    Ok((Some(host), read_port(digits)?))
}

/// The authority, which follows two slashes, and the text after it.
fn split_authority(rest: &str) -> Option<(&str, &str)>
    ensures { option_map both result
        ≡ (if has_authority rest.now then Some (authority_in rest.now, behind_authority rest.now) else None) }
{
    let behind = rest.strip_prefix("//")?;
    Some(behind.split_at(authority_len(behind)))
}

fn authority_len(text: &str) -> usize
    ensures { result ≡ position_or_len ends_authority text.now }
{
    text.bytes()
        .position(|b| b == b'/' || b == b'?' || b == b'#')
        .unwrap_or(text.len())
}

/// What follows the last `@`, or all of it.
pub(crate) fn server_of(authority: &str) -> &str
    ensures { result.now ≡ server_in authority.now }
{
    match authority.rsplit_once('@') {
        Some((_, server)) => server,
        None => authority,
    }
}

/// The host and the digits of the port, which are absent if there is no port.
fn split_port(server: &str) -> (&str, &str)
    ensures { both result ≡ (host_in server.now, port_text server.now) }
{
    match server.rsplit_once(':') {
        Some(cut) if has_port(server) => cut,
        _ => (server, ""),
    }
}

/// Whether there is a colon after the last `]`.
fn has_port(server: &str) -> bool
    ensures { result ≡ has_port server.now }
{
    match server.rsplit_once(']') {
        Some((_, behind)) => has_colon(behind),
        None => has_colon(server),
    }
}

fn has_colon(text: &str) -> bool
    ensures { result ≡ list_any is_colon text.now }
{
    text.as_bytes().contains(&b':')
}

/// The number that the digits write, if there are any.
fn read_port(digits: &str) -> Result<Option<u32>, UriFault>
    ensures { result ≡ (if is_port digits.now then Ok (port_of digits.now) else Err UriFault.BadPort) }
{
    if is_port(digits) {
        Ok(digits.parse().ok())
    } else {
        Err(UriFault::BadPort)
    }
}

fn is_port(text: &str) -> bool
    ensures { result ≡ is_port text.now }
{
    text.len() <= MAX_DIGITS && has_digits_alone(text)
}

pub(crate) fn has_digits_alone(text: &str) -> bool
    ensures { result ≡ list_all is_ascii_digit text.now }
{
    text.bytes().all(|b| b.is_ascii_digit())
}

/// The path as it is written, which is empty in an opaque rest.
pub(crate) fn path_of(rest: &str) -> &str
    ensures { result.now ≡ path_text rest.now }
{
    match split_authority(rest) {
        Some((_, behind)) => before_query(behind),
        None if rest.starts_with('/') => before_query(rest),
        None => "",
    }
}

/// The text before the first question mark or number sign.
pub(crate) fn before_query(text: &str) -> &str
    ensures { result.now ≡ take_while (λ b. not (ends_path b)) text.now }
{
    &text[..path_len(text)]
}

fn path_len(text: &str) -> usize
    ensures { result ≡ position_or_len ends_path text.now }
{
    text.bytes()
        .position(|b| b == b'?' || b == b'#')
        .unwrap_or(text.len())
}

/// Whether two hexadecimal digits follow each percent sign.
fn is_escaped(path: &[u8]) -> bool
    ensures { result ≡ is_escaped path.now }
{
    for (i, b) in path.iter().enumerate() {
        if *b == b'%' && !begins_with_digits(&path[i + 1..]) {
            return false;
        }
    }
    true
}

pub(crate) fn begins_with_digits(bytes: &[u8]) -> bool
    ensures { result ≡ begins_with_digits bytes.now }
{
    match bytes {
        [high, low, ..] => high.is_ascii_hexdigit() && low.is_ascii_hexdigit(),
        _ => false,
    }
}

fn uri_from(alloc: Global, text: &Text, parts: &Written<'_>) -> Result<Uri, UriFault>
    ensures { IsUriAnswer (decoded text.now parts.now) result }
{
    let path = decode(alloc, parts.path)?;
    match copied(alloc, text, parts, path) {
        Ok(uri) => Ok(uri),
        Err(_) => Err(UriFault::NoMemory),
    }
}

fn decode(alloc: Global, path: &str) -> Result<Text, UriFault>
    ensures { Decodes path.now result }
{
    let text = match percent_decode(path.as_bytes()).decode_utf8(alloc) {
        Ok(text) => text,
        Err(DecodeError::Utf8(_)) => return Err(UriFault::NotUtf8),
        Err(DecodeError::OutOfMemory) => return Err(UriFault::NoMemory),
    };
    match text.into_owned(alloc) {
        Ok(text) => Ok(Text::new(text)),
        Err(_) => Err(UriFault::NoMemory),
    }
}

fn copied(alloc: Global, text: &Text, parts: &Written<'_>, path: Text) -> Result<Uri, AllocError>
    ensures { IfOk result (λ uri. uri ≡ uri_with text.now parts.now path) }
{
    Ok(Uri {
        text: text.clone()?,
        scheme: Text::of(alloc, parts.scheme)?,
        profile: UriParts {
            host: copied_host(alloc, parts.host)?,
            port: parts.port,
            path,
        },
        phone: phone_parts(alloc, parts.rest)?,
    })
}

fn copied_host(alloc: Global, host: Option<&str>) -> Result<Option<Text>, AllocError>
    ensures { IfOk result (λ copy. copy ≡ option_copied host.entry) }
{
    match host {
        Some(host) => Ok(Some(Text::of(alloc, host)?)),
        None => Ok(None),
    }
}
