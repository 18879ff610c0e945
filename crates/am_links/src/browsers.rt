//! Which browser is chosen.
ghost use Rattle.std.specs.Prelude.{◌≡◌, option_copied};
ghost use Rattle.am_model.specs.Links.{browsers_of, chosen_browser, first_of_package, greatest_of};
ghost use Rattle.am_links.specs.Gathered.{with_browser};

use am_types::{Candidate, Hit, List, Text};

/// The greatest priority of the browsers among some candidates, at least 0.
fn greatest_of(found: &List<Candidate>) -> i32
    ensures { result ≡ greatest_of (browsers_of found.now) }
{
    let mut most = 0;
    for candidate in found.as_slice() {
        most = with_browser(most, candidate);
    }
    most
}

/// The greatest priority so far, or that of a browser, if it is greater.
fn with_browser(most: i32, candidate: &Candidate) -> i32
    ensures { result ≡ with_browser most candidate.now }
{
    if candidate.finding.browses {
        candidate.hit.priority.max(most)
    } else {
        most
    }
}

/// The first browser of the package among some candidates.
fn first_of_package<'a>(name: &Text, found: &'a List<Candidate>) -> Option<&'a Hit>
    ensures { option_copied result ≡ first_of_package name.now (browsers_of found.now) }
{
    for candidate in found.as_slice() {
        if candidate.finding.browses && candidate.hit.component.package == *name {
            return Some(&candidate.hit);
        }
    }
    None
}

/// The device's browser, if it is among the candidates with a priority that no browser exceeds.
pub(crate) fn chosen_browser<'a>(
    browser: Option<&Text>,
    found: &'a List<Candidate>,
) -> Option<&'a Hit>
    ensures { option_copied result ≡ chosen_browser (option_copied browser.entry) (browsers_of found.now) }
{
    let Some(name) = browser else {
        return None;
    };
    match first_of_package(name, found) {
        Some(hit) if hit.priority >= greatest_of(found) => Some(hit),
        _ => None,
    }
}
