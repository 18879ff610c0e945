//! The tests on the data of an intent: its URI and its type.
ghost use Rattle.std.specs.Prelude.{◌≡◌, Some, None};
ghost use Rattle.std.specs.List.{list_any};
ghost use Rattle.am_types.specs.declared.device.Rules.{Rules};
ghost use Rattle.am_model.specs.Filters.{data_why, has_host, has_port, is_local, passes_authorities, passes_authority, passes_paths, typed_uri_why, unless, uri_why};
ghost use Rattle.am_model.specs.MimeTypes.{goes_with, is_any, is_any_type, passes_type, shares_main};
ghost use Rattle.am_model.specs.Paths.{passes_path};
ghost use Rattle.am_model.specs.Texts.{ends_with, lowered};
ghost use Rattle.am_filter.specs.Answers.{answer_of};
ghost use Rattle.am_filter.specs.Patterns.{has_pattern, repeats};

use crate::filter::lists;
use am_types::{Authority, Filter, List, Mime, PathRule, Rules, Text, Uri, UriParts, Why};
use am_uri::passes_path;

/// Whether the data passes. (The `<data>` element of the reference.)
pub(crate) fn passes(
    rules: Rules,
    filter: &Filter,
    uri: &Option<Uri>,
    mime: &Option<Mime>,
) -> Result<(), Why>
    ensures { result ≡ answer_of (data_why rules filter.now uri.now mime.now) }
{
    match (uri, mime) {
        (None, None) => passes_bare(filter),
        (Some(uri), None) => passes_uri_alone(rules, filter, uri),
        (None, Some(mime)) => passes_type_alone(filter, mime),
        (Some(uri), Some(mime)) => passes_both(rules, filter, uri, mime),
    }
}

/// Neither URI nor type: the filter lists neither scheme nor type.
fn passes_bare(filter: &Filter) -> Result<(), Why>
    ensures { (rules : Rules) → result ≡ answer_of (data_why rules filter.now None None) }
{
    unless(filter.schemes.as_slice().is_empty(), Why::Scheme)?;
    unless(filter.types.as_slice().is_empty(), Why::Type_)
}

/// A URI without a type: it passes, and the filter lists no type.
fn passes_uri_alone(rules: Rules, filter: &Filter, uri: &Uri) -> Result<(), Why>
    ensures { result ≡ answer_of (data_why rules filter.now (Some uri.now) None) }
{
    passes_uri(rules, filter, uri)?;
    unless(filter.types.as_slice().is_empty(), Why::Type_)
}

/// A type without a URI: the filter lists no scheme, and the type passes.
fn passes_type_alone(filter: &Filter, mime: &Mime) -> Result<(), Why>
    ensures { (rules : Rules) → result ≡ answer_of (data_why rules filter.now None (Some mime.now)) }
{
    unless(filter.schemes.as_slice().is_empty(), Why::Scheme)?;
    unless(passes_type(&filter.types, mime), Why::Type_)
}

/// Both: each passes, and a filter without schemes accepts local content.
fn passes_both(rules: Rules, filter: &Filter, uri: &Uri, mime: &Mime) -> Result<(), Why>
    ensures { result ≡ answer_of (data_why rules filter.now (Some uri.now) (Some mime.now)) }
{
    passes_typed_uri(rules, filter, uri)?;
    unless(passes_type(&filter.types, mime), Why::Type_)
}

/// The reason, unless the test holds.
pub(crate) fn unless(holds: bool, reason: Why) -> Result<(), Why>
    ensures { result ≡ answer_of (unless holds reason) }
{
    if holds { Ok(()) } else { Err(reason) }
}

/// A URI with a type passes as it does alone, or as local content if no scheme is listed.
fn passes_typed_uri(rules: Rules, filter: &Filter, uri: &Uri) -> Result<(), Why>
    ensures { result ≡ answer_of (typed_uri_why rules filter.now uri.now) }
{
    if filter.schemes.as_slice().is_empty() && is_local(uri) {
        Ok(())
    } else {
        passes_uri(rules, filter, uri)
    }
}

/// Content on the device itself.
fn is_local(uri: &Uri) -> bool
    ensures { result ≡ is_local uri.now }
{
    uri.scheme.as_str() == "content" || uri.scheme.as_str() == "file"
}

/// The scheme passes, then the host and the port, then the path.
fn passes_uri(rules: Rules, filter: &Filter, uri: &Uri) -> Result<(), Why>
    ensures { result ≡ answer_of (uri_why rules filter.now uri.now) }
{
    unless(lists(&filter.schemes, &uri.scheme), Why::Scheme)?;
    let parts = uri.parts(rules);
    unless(passes_authorities(&filter.authorities, parts), Why::Host)?;
    unless(passes_paths(rules, filter, parts), Why::Path)
}

/// Some authority passes, if any is listed.
fn passes_authorities(authorities: &List<Authority>, parts: &UriParts) -> bool
    ensures { result ≡ passes_authorities authorities.now parts.now }
{
    let authorities = authorities.as_slice();
    authorities.is_empty() || some_authority_passes(authorities, parts)
}

fn some_authority_passes(authorities: &[Authority], parts: &UriParts) -> bool
    ensures { result
        ≡ list_any (λ authority. passes_authority authority parts.now.host parts.now.port) authorities.now }
{
    authorities
        .iter()
        .any(|authority| passes_authority(authority, parts))
}

/// Some path rule passes, if there is one that counts: paths count only with an authority.
fn passes_paths(rules: Rules, filter: &Filter, parts: &UriParts) -> bool
    ensures { result ≡ passes_paths rules filter.now parts.now }
{
    filter.authorities.as_slice().is_empty()
        || filter.paths.as_slice().is_empty()
        || some_path_passes(rules, &filter.paths, &parts.path)
}

/// Some rule passes. A pattern costs most, so a pattern that is also an earlier rule isn't tested again.
fn some_path_passes(rules: Rules, paths: &List<PathRule>, path: &Text) -> bool
    ensures { result ≡ list_any (λ rule. passes_path rules rule path.now) paths.now }
{
    let listed = paths.as_slice();
    for (i, rule) in listed.iter().enumerate() {
        if !repeats(&listed[..i], rule) && passes_path(rules, rule, path) {
            return true;
        }
    }
    false
}

/// The rule is a pattern that is also an earlier rule.
fn repeats(earlier: &[PathRule], rule: &PathRule) -> bool
    ensures { result ≡ repeats earlier.now rule.now }
{
    match rule {
        PathRule::Pattern(glob) => some_has_pattern(earlier, glob.text()),
        _ => false,
    }
}

fn some_has_pattern(rules: &[PathRule], pattern: &Text) -> bool
    ensures { result ≡ list_any (has_pattern pattern.now) rules.now }
{
    rules.iter().any(|rule| has_pattern(rule, pattern))
}

/// The rule is this pattern.
fn has_pattern(rule: &PathRule, pattern: &Text) -> bool
    ensures { result ≡ has_pattern pattern.now rule.now }
{
    match rule {
        PathRule::Pattern(glob) => glob.text() == pattern,
        _ => false,
    }
}

/// The URI has a host, and its host and port match those of the authority.
pub(crate) fn passes_authority(authority: &Authority, parts: &UriParts) -> bool
    ensures { result ≡ passes_authority authority.now parts.now.host parts.now.port }
{
    match &parts.host {
        None => false,
        Some(host) => {
            has_host(authority.host.as_str(), host.as_str()) && has_port(authority.port, parts.port)
        }
    }
}

/// Whether the hosts are equal with ASCII case ignored, or the filter's begins with a star and the
/// other ends with what follows. Takes no memory.
pub fn has_host(listed: &str, host: &str) -> bool
    ensures { result ≡ has_host (lowered listed.now) (lowered host.now) }
{
    match listed.strip_prefix('*') {
        Some(end) => ends_with(host.as_bytes(), end.as_bytes()),
        None => listed.eq_ignore_ascii_case(host),
    }
}

/// The first text ends with the second, with ASCII case ignored.
fn ends_with(text: &[u8], end: &[u8]) -> bool
    ensures { result ≡ ends_with (lowered text.now) (lowered end.now) }
{
    text.len() >= end.len() && text[text.len() - end.len()..].eq_ignore_ascii_case(end)
}

/// The filter has no port, or it has the URI's.
fn has_port(listed: Option<u32>, port: Option<u32>) -> bool
    ensures { result ≡ has_port listed port }
{
    listed.is_none() || listed == port
}

/// Whether some listed type matches this one. Takes no memory.
pub fn passes_type(types: &List<Mime>, mime: &Mime) -> bool
    ensures { result ≡ passes_type types.now mime.now }
{
    types
        .as_slice()
        .iter()
        .any(|listed| goes_with(listed, mime))
}

/// The types are equal, or one covers the other. Case counts.
fn goes_with(mime: &Mime, other: &Mime) -> bool
    ensures { result ≡ goes_with mime.now other.now }
{
    shares_main(mime, other) || is_any_type(mime) || is_any_type(other)
}

/// The main parts are the same, and the sub parts are the same or one of them covers every other.
fn shares_main(mime: &Mime, other: &Mime) -> bool
    ensures { result ≡ shares_main mime.now other.now }
{
    mime.main == other.main && (mime.sub == other.sub || is_any(&mime.sub) || is_any(&other.sub))
}

/// Whether the type covers every other type. Takes no memory.
pub fn is_any_type(mime: &Mime) -> bool
    ensures { result ≡ is_any_type mime.now }
{
    is_any(&mime.main) && is_any(&mime.sub)
}

/// A part that covers every other part.
pub(crate) fn is_any(part: &Text) -> bool
    ensures { result ≡ is_any part.now }
{
    part.as_str() == "*"
}
