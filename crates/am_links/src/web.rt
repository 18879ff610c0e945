//! Which intents view a web page, and which of these are links.
ghost use Rattle.std.specs.Prelude.{◌≡◌, option_copied};
ghost use Rattle.std.specs.List.{list_all, list_any};
ghost use Rattle.am_model.specs.Candidates.{is_web_scheme};
ghost use Rattle.am_model.specs.Links.{asks_default, domain_in, has_web_scheme, is_web, link_host};
ghost use Rattle.am_model.specs.Targets.{is_view, is_web_category, named_host, web_host};
ghost use Rattle.am_model.specs.Texts.{lists};

use crate::domain::is_domain;
use am_types::{Intent, List, Rules, Text, Uri};

/// What a page is viewed by.
pub(crate) const VIEW: &str = "android.intent.action.VIEW";

/// What a link to a page has.
pub(crate) const BROWSABLE: &str = "android.intent.category.BROWSABLE";

/// What an implicit start of an activity needs.
const DEFAULT: &str = "android.intent.category.DEFAULT";

/// The scheme of web pages, with or without encryption.
fn is_web_scheme(scheme: &Text) -> bool
    ensures { result ≡ is_web_scheme scheme.now }
{
    let scheme = scheme.as_str();
    scheme == "http" || scheme == "https"
}

/// A scheme of web pages is listed.
pub(crate) fn lists_web_scheme(schemes: &List<Text>) -> bool
    ensures { result ≡ list_any is_web_scheme schemes.now }
{
    schemes
        .as_slice()
        .iter()
        .any(|scheme| is_web_scheme(scheme))
}

/// The word is listed.
pub(crate) fn lists(texts: &List<Text>, word: &str) -> bool
    ensures { result ≡ lists texts.now word.now }
{
    texts.as_slice().iter().any(|text| text.as_str() == word)
}

/// The host, unless it is empty.
fn named_host(host: &Option<Text>) -> Option<&Text>
    ensures { option_copied result ≡ named_host host.now }
{
    match host {
        Some(host) if !host.as_str().is_empty() => Some(host),
        _ => None,
    }
}

/// The host of a web page by the device's rules, if the URI is the URI of one and has a nonempty host. Takes no memory.
pub fn web_host(rules: Rules, uri: &Option<Uri>) -> Option<&Text>
    ensures { option_copied result ≡ web_host rules uri.now }
{
    match uri {
        Some(uri) if is_web_scheme(&uri.scheme) => named_host(&uri.parts(rules).host),
        _ => None,
    }
}

/// The action is the view action. Takes no memory.
pub fn is_view(action: &Option<Text>) -> bool
    ensures { result ≡ is_view action.now }
{
    match action {
        Some(action) => action.as_str() == "android.intent.action.VIEW",
        None => false,
    }
}

/// A category that a web intent may have.
fn is_web_category(category: &Text) -> bool
    ensures { result ≡ is_web_category category.now }
{
    let category = category.as_str();
    category == "android.intent.category.BROWSABLE" || category == "android.intent.category.DEFAULT"
}

/// A web intent may have each of the categories. Takes no memory.
pub fn are_web_categories(categories: &List<Text>) -> bool
    ensures { result ≡ list_all is_web_category categories.now }
{
    categories
        .as_slice()
        .iter()
        .all(|category| is_web_category(category))
}

/// The URI, if there is one, is that of a web page.
fn has_web_scheme(uri: &Option<Uri>) -> bool
    ensures { result ≡ has_web_scheme uri.now }
{
    match uri {
        Some(uri) => is_web_scheme(&uri.scheme),
        None => false,
    }
}

/// The intent has the URI of a web page, and names neither a component nor a package.
pub(crate) fn is_web(intent: &Intent) -> bool
    ensures { result ≡ is_web intent.now }
{
    has_web_scheme(&intent.uri) && intent.component.is_none() && intent.package.is_none()
}

/// The default category is asked for: by a query for nothing else, or by the intent.
fn asks_default(intent: &Intent, default_only: bool) -> bool
    ensures { result ≡ asks_default intent.now default_only }
{
    default_only || lists(&intent.categories, DEFAULT)
}

/// The host, if there is one and it is a domain.
fn domain_in(host: Option<&Text>) -> Option<&Text>
    ensures { option_copied result ≡ domain_in (option_copied host.entry) }
{
    match host {
        Some(host) if is_domain(host.as_str()) => Some(host),
        _ => None,
    }
}

/// The host of a link: what a web intent views, if it asks for the default category and has no category of another kind.
pub(crate) fn link_host(intent: &Intent, default_only: bool) -> Option<&Text>
    ensures { option_copied result ≡ link_host intent.now default_only }
{
    if is_view(&intent.action)
        && are_web_categories(&intent.categories)
        && asks_default(intent, default_only)
    {
        domain_in(web_host(Rules::Android12, &intent.uri))
    } else {
        None
    }
}
