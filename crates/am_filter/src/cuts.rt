//! Where a phone comes upon a filter, and what an intent's data reach in it.
ghost use Rattle.std.specs.Prelude.{◌≡◌, ◌&&◌};
ghost use Rattle.std.specs.List.{list_any};
ghost use Rattle.am_model.specs.Candidates.{is_browsers, is_web_scheme, views_any_page};
ghost use Rattle.am_model.specs.Cuts.{cut_by_any_type, cut_by_type, cut_of, cut_of_action, cut_of_data, cut_of_scheme, cut_of_type, is_all_of, is_of_main, lists_type, reached, reached_by_authority, reached_by_data, reached_by_port, reached_by_uri};
ghost use Rattle.am_model.specs.MimeTypes.{is_any_type};
ghost use Rattle.am_model.specs.Texts.{is_same, lists};
ghost use Rattle.am_types.specs.declared.uri.Mime.{Mime};

use crate::data::{is_any, is_any_type, passes_authority};
use crate::filter::lists;
use am_types::{Authority, Filter, Intent, List, Mime, Text, Uri, UriParts};

/// The action of an intent to view something.
const VIEW: &str = "android.intent.action.VIEW";

/// The category of what a web page may start.
const BROWSABLE: &str = "android.intent.category.BROWSABLE";

/// The category of a browser.
const APP_BROWSER: &str = "android.intent.category.APP_BROWSER";

/// Where a phone comes upon an app's filter, if it does: from 0, which comes first, to 3. Of a package
/// that the intent names it tests every filter. (AOSP, `IntentResolver.queryIntent`.) Takes no memory.
pub fn cut_of(filter: &Filter, intent: &Intent) -> Option<u8>
    ensures { result ≡ cut_of filter.now intent.now }
{
    match &intent.package {
        Some(_) => Some(0),
        None => cut_of_data(filter, intent),
    }
}

/// The same, whether or not the intent names a package.
pub(crate) fn cut_of_data(filter: &Filter, intent: &Intent) -> Option<u8>
    ensures { result ≡ cut_of_data filter.now intent.now.action intent.now.uri intent.now.mime }
{
    match (&intent.uri, &intent.mime) {
        (None, None) => cut_of_action(filter, &intent.action),
        (Some(uri), None) => cut_of_scheme(filter, uri),
        (None, Some(mime)) => cut_of_type(filter, &intent.action, mime),
        (Some(uri), Some(mime)) => {
            cut_of_type(filter, &intent.action, mime).or(cut_of_scheme(filter, uri))
        }
    }
}

/// By the action.
fn cut_of_action(filter: &Filter, action: &Option<Text>) -> Option<u8>
    ensures { result ≡ cut_of_action filter.now action.now }
{
    match action {
        Some(action) if lists(&filter.actions, action) => Some(3),
        _ => None,
    }
}

/// By the URI's scheme, behind those that are found by a type.
fn cut_of_scheme(filter: &Filter, uri: &Uri) -> Option<u8>
    ensures { result ≡ cut_of_scheme filter.now uri.now }
{
    if lists(&filter.schemes, &uri.scheme) {
        Some(3)
    } else {
        None
    }
}

/// By the type.
fn cut_of_type(filter: &Filter, action: &Option<Text>, mime: &Mime) -> Option<u8>
    ensures { result ≡ cut_of_type filter.now action.now mime.now }
{
    if is_any(&mime.main) {
        cut_by_any_type(filter, action)
    } else {
        cut_by_type(&filter.types, mime)
    }
}

/// By a type whose main part stands for every other: by the action, if the filter lists some type.
fn cut_by_any_type(filter: &Filter, action: &Option<Text>) -> Option<u8>
    ensures { result ≡ cut_by_any_type filter.now action.now }
{
    match action {
        Some(action) if lists(&filter.actions, action) && !filter.types.as_slice().is_empty() => {
            Some(0)
        }
        _ => None,
    }
}

/// By a type with a main part: first the filters that list it, then those that list all of its main part, then those
/// that list every type.
fn cut_by_type(types: &List<Mime>, mime: &Mime) -> Option<u8>
    ensures { result ≡ cut_by_type types.now mime.now }
{
    if lists_type(types, mime) {
        Some(0)
    } else if lists_all_of(types, &mime.main) {
        Some(1)
    } else if lists_any_type(types) {
        Some(2)
    } else {
        None
    }
}

/// The filter lists the type itself; or, of a type that stands for all of a main part, one of these.
fn lists_type(types: &List<Mime>, mime: &Mime) -> bool
    ensures { result ≡ lists_type types.now mime.now }
{
    if is_any(&mime.sub) {
        lists_main(types, &mime.main)
    } else {
        lists_same(types, mime)
    }
}

/// Some listed type is the type itself.
fn lists_same(types: &List<Mime>, mime: &Mime) -> bool
    ensures { result ≡ list_any (λ (m : Mime). is_same m.main mime.now.main && is_same m.sub mime.now.sub) types.now }
{
    types.as_slice().iter().any(|listed| listed.main == mime.main && listed.sub == mime.sub)
}

/// Some listed type has the main part, and doesn't stand for all of it.
fn lists_main(types: &List<Mime>, main: &Text) -> bool
    ensures { result ≡ list_any (is_of_main main.now) types.now }
{
    types
        .as_slice()
        .iter()
        .any(|listed| listed.main == *main && !is_any(&listed.sub))
}

/// Some listed type stands for all of the main part.
fn lists_all_of(types: &List<Mime>, main: &Text) -> bool
    ensures { result ≡ list_any (is_all_of main.now) types.now }
{
    types
        .as_slice()
        .iter()
        .any(|listed| listed.main == *main && is_any(&listed.sub))
}

/// Some listed type stands for every other.
fn lists_any_type(types: &List<Mime>) -> bool
    ensures { result ≡ list_any is_any_type types.now }
{
    types.as_slice().iter().any(|listed| is_any_type(listed))
}

/// What an intent's data reach in a filter that they pass, from 1 to 6: no data, a scheme, a host, a host and a port, a
/// path, a type. (AOSP, `IntentFilter.matchData`.) Takes no memory.
pub fn reached(filter: &Filter, uri: &Option<Uri>) -> u8
    ensures { result ≡ reached filter.now uri.now }
{
    if filter.types.as_slice().is_empty() {
        reached_by_data(filter, uri)
    } else {
        6
    }
}

/// The same in a filter that lists no type.
fn reached_by_data(filter: &Filter, uri: &Option<Uri>) -> u8
    ensures { result ≡ reached_by_data filter.now uri.now }
{
    match uri {
        None => 1,
        Some(uri) => reached_by_uri(filter, &uri.phone),
    }
}

/// The same of a URI with these parts in a filter that lists schemes.
fn reached_by_uri(filter: &Filter, parts: &UriParts) -> u8
    ensures { result ≡ reached_by_uri filter.now parts.now }
{
    if filter.authorities.as_slice().is_empty() {
        2
    } else if filter.paths.as_slice().is_empty() {
        reached_by_authority(&filter.authorities, parts)
    } else {
        5
    }
}

/// The first authority that passes says whether the port counts.
fn reached_by_authority(authorities: &List<Authority>, parts: &UriParts) -> u8
    ensures { result ≡ reached_by_authority authorities.now parts.now }
{
    for authority in authorities.as_slice() {
        if passes_authority(authority, parts) {
            return reached_by_port(authority.port);
        }
    }
    3
}

fn reached_by_port(port: Option<u32>) -> u8
    ensures { result ≡ reached_by_port port }
{
    match port {
        None => 3,
        Some(_) => 4,
    }
}

/// Whether the filter is a browser's: it says so, or asks to view any web page. (AOSP,
/// `IntentFilter.handleAllWebDataURI`.) Takes no memory.
pub fn is_browsers(filter: &Filter) -> bool
    ensures { result ≡ is_browsers filter.now }
{
    lists_word(&filter.categories, APP_BROWSER) || views_any_page(filter)
}

/// The filter asks to view any web page.
fn views_any_page(filter: &Filter) -> bool
    ensures { result ≡ views_any_page filter.now }
{
    lists_word(&filter.actions, VIEW)
        && lists_word(&filter.categories, BROWSABLE)
        && lists_web_scheme(&filter.schemes)
        && filter.authorities.as_slice().is_empty()
}

/// Some listed scheme is that of web pages.
fn lists_web_scheme(schemes: &List<Text>) -> bool
    ensures { result ≡ list_any is_web_scheme schemes.now }
{
    schemes
        .as_slice()
        .iter()
        .any(|scheme| is_web_scheme(scheme))
}

/// Whether the scheme is that of web pages, with or without encryption. Takes no memory.
pub fn is_web_scheme(scheme: &Text) -> bool
    ensures { result ≡ is_web_scheme scheme.now }
{
    scheme.as_str() == "http" || scheme.as_str() == "https"
}

/// The word is listed.
fn lists_word(texts: &List<Text>, word: &str) -> bool
    ensures { result ≡ lists texts.now word.now }
{
    texts
        .as_slice()
        .iter()
        .any(|listed| listed.as_str() == word)
}
