//! When two intents are the same for a filter.
ghost use Rattle.std.specs.Prelude.{◌≡◌};
ghost use Rattle.std.specs.Option.{option_eq};
ghost use Rattle.am_model.specs.Intents.{are_same_set, filter_equals, is_same_uri};

use crate::filter::lists_all;
use am_types::{Intent, List, Text, Uri};

/// Whether the two have the same action, text of the URI, type, identifier, package, component and
/// set of categories. Flags and extras don't count. (AOSP, `Intent.filterEquals`; the package
/// plainly: own.) Takes no memory.
pub fn filter_equals(a: &Intent, b: &Intent) -> bool
    ensures { result ≡ filter_equals a.now b.now }
{
    a.action == b.action
        && same_uris(&a.uri, &b.uri)
        && a.mime == b.mime
        && a.identifier == b.identifier
        && a.package == b.package
        && a.component == b.component
        && same_sets(&a.categories, &b.categories)
}

/// The URIs have the same text.
fn same_uris(a: &Option<Uri>, b: &Option<Uri>) -> bool
    ensures { result ≡ option_eq is_same_uri a.now b.now }
{
    match (a, b) {
        (None, None) => true,
        (Some(a), Some(b)) => a.text == b.text,
        _ => false,
    }
}

/// Each text of either list is in the other.
fn same_sets(a: &List<Text>, b: &List<Text>) -> bool
    ensures { result ≡ are_same_set a.now b.now }
{
    lists_all(b, a) && lists_all(a, b)
}
