//! Whether a filter meets an intent that queries ask for.
ghost use Rattle.std.specs.Prelude.{◌≡◌, option_copied};
ghost use Rattle.std.specs.List.{list_any};
ghost use Rattle.am_model.specs.Filters.{has_host};
ghost use Rattle.am_model.specs.Texts.{lists, lowered};
ghost use Rattle.am_model.specs.Visibility.{asked_scheme, is_local_scheme, meets, takes_data, takes_host, takes_no_scheme, takes_no_type, takes_scheme, takes_type};

use am_filter::{has_host, lists, lists_all, passes_type};
use am_types::{Authority, Filter, List, Mime, Signature, Text};

/// Whether the filter meets the signature: it lists the action and each category, and takes the scheme, the host and
/// the type. A type without a scheme means the scheme `content`. A filter without schemes takes a type with `content`
/// or `file`. Without a scheme the host is ignored; ports and paths aren't compared. (The `<queries>` element of the
/// reference; ports and paths: own.) Takes no memory.
pub fn meets(filter: &Filter, signature: &Signature) -> bool
    ensures { result ≡ meets filter.now signature.now }
{
    lists(&filter.actions, &signature.action)
        && lists_all(&filter.categories, &signature.categories)
        && takes_data(filter, signature)
}

/// The filter takes the data of the signature.
fn takes_data(filter: &Filter, signature: &Signature) -> bool
    ensures { result ≡ takes_data filter.now signature.now }
{
    let scheme = asked_scheme(signature);
    takes_no_scheme(filter, scheme)
        && takes_scheme(filter, scheme, &signature.mime)
        && takes_no_type(filter, scheme, &signature.mime)
        && takes_type(filter, &signature.mime)
        && takes_host(filter, &signature.scheme, &signature.host)
}

/// The signature's scheme: with a type and without a scheme it is `content`.
fn asked_scheme(signature: &Signature) -> Option<&str>
    ensures { option_copied result ≡ asked_scheme signature.now.scheme signature.now.mime }
{
    match (&signature.scheme, &signature.mime) {
        (Some(scheme), _) => Some(scheme.as_str()),
        (None, Some(_)) => Some("content"),
        (None, None) => None,
    }
}

/// If the signature has no scheme, the filter lists neither a scheme nor a type.
fn takes_no_scheme(filter: &Filter, scheme: Option<&str>) -> bool
    ensures { result ≡ takes_no_scheme filter.now (option_copied scheme.entry) }
{
    match scheme {
        None => filter.schemes.as_slice().is_empty() && filter.types.as_slice().is_empty(),
        Some(_) => true,
    }
}

/// The filter lists the signature's scheme, or it lists none and the signature has a type of local content.
fn takes_scheme(filter: &Filter, scheme: Option<&str>, mime: &Option<Mime>) -> bool
    ensures { result ≡ takes_scheme filter.now (option_copied scheme.entry) mime.now }
{
    match scheme {
        None => true,
        Some(scheme) => {
            lists_scheme(&filter.schemes, scheme)
                || (mime.is_some() && filter.schemes.as_slice().is_empty() && is_local(scheme))
        }
    }
}

/// The scheme is listed.
fn lists_scheme(schemes: &List<Text>, scheme: &str) -> bool
    ensures { result ≡ lists schemes.now scheme.now }
{
    schemes
        .as_slice()
        .iter()
        .any(|listed| listed.as_str() == scheme)
}

/// A scheme of content on the device itself.
fn is_local(scheme: &str) -> bool
    ensures { result ≡ is_local_scheme scheme.now }
{
    scheme == "content" || scheme == "file"
}

/// If the signature has a scheme and no type, the filter lists no type.
fn takes_no_type(filter: &Filter, scheme: Option<&str>, mime: &Option<Mime>) -> bool
    ensures { result ≡ takes_no_type filter.now (option_copied scheme.entry) mime.now }
{
    match (scheme, mime) {
        (Some(_), None) => filter.types.as_slice().is_empty(),
        _ => true,
    }
}

/// The filter takes the type, if the signature has one.
fn takes_type(filter: &Filter, mime: &Option<Mime>) -> bool
    ensures { result ≡ takes_type filter.now mime.now }
{
    match mime {
        None => true,
        Some(mime) => passes_type(&filter.types, mime),
    }
}

/// The filter takes the host that the signature has with a scheme: it lists no scheme, or no authority, or an authority
/// with the host, at any port.
fn takes_host(filter: &Filter, scheme: &Option<Text>, host: &Option<Text>) -> bool
    ensures { result ≡ takes_host filter.now scheme.now host.now }
{
    match (scheme, host) {
        (Some(_), Some(host)) => {
            filter.schemes.as_slice().is_empty()
                || filter.authorities.as_slice().is_empty()
                || some_has_host(&filter.authorities, host)
        }
        _ => true,
    }
}

/// Some authority has the host.
fn some_has_host(authorities: &List<Authority>, host: &Text) -> bool
    ensures { result ≡ list_any (λ (a : Authority). has_host (lowered a.host) (lowered host.now)) authorities.now }
{
    authorities.as_slice().iter().any(|authority| has_host(authority.host.as_str(), host.as_str()))
}
