//! Which activity is approved for a link.
ghost use Rattle.std.specs.Prelude.{◌≡◌, ◌&&◌, ◌==◌, option_copied};
ghost use Rattle.std.specs.List.{filter, list_any};
ghost use Rattle.am_types.specs.declared.filter.Authority.{Authority};
ghost use Rattle.am_types.specs.declared.manifest.Kind.TheVariants.{Activity};
ghost use Rattle.am_model.specs.Candidates.{is_kind};
ghost use Rattle.am_model.specs.Links.{approved_hit, covers, declares_host, declares_link, declares_link_at, is_approved_for, is_later, last_of, later_of, takes_link};
ghost use Rattle.am_model.specs.Texts.{ends_with, is_same, lowered};
ghost use Rattle.am_links.specs.Gathered.{later_after};

use crate::web::{BROWSABLE, VIEW, lists, lists_web_scheme};
use am_installed::Installed;
use am_types::{Authority, Candidate, Decl, Filter, Hit, Kind, Link, List, Package, Text};

/// The hosts are the same, with ASCII case ignored.
fn is_same_host(host: &Text, other: &Text) -> bool
    ensures { result ≡ is_same (lowered host.now) (lowered other.now) }
{
    host.as_str().eq_ignore_ascii_case(other.as_str())
}

/// The host is listed, with ASCII case ignored.
fn lists_host(authorities: &List<Authority>, host: &Text) -> bool
    ensures { result ≡ list_any (λ (a : Authority). is_same (lowered a.host) (lowered host.now)) authorities.now }
{
    authorities
        .as_slice()
        .iter()
        .any(|authority| is_same_host(&authority.host, host))
}

/// The filter asks to view web pages of that host, which an approval needs.
fn declares_host(host: &Text, filter: &Filter) -> bool
    ensures { result ≡ declares_host host.now filter.now }
{
    lists(&filter.actions, VIEW)
        && lists(&filter.categories, BROWSABLE)
        && lists_web_scheme(&filter.schemes)
        && lists_host(&filter.authorities, host)
}

/// One of the filters asks for that.
fn some_declares_host(host: &Text, filters: &List<Filter>) -> bool
    ensures { result ≡ list_any (declares_host host.now) filters.now }
{
    filters
        .as_slice()
        .iter()
        .any(|filter| declares_host(host, filter))
}

/// The component is an activity with such a filter.
fn is_declared_by(host: &Text, decl: &Decl) -> bool
    ensures { result ≡ (is_kind Activity decl.now.kind && list_any (declares_host host.now) decl.now.filters) }
{
    matches!(decl.kind, Kind::Activity) && some_declares_host(host, &decl.filters)
}

/// An activity of the package has such a filter.
fn declares_link(host: &Text, owner: &Package) -> bool
    ensures { result ≡ declares_link host.now owner.now }
{
    owner
        .decls
        .as_slice()
        .iter()
        .any(|decl| is_declared_by(host, decl))
}

/// There is a package, and an activity of it has such a filter.
fn declares_link_at(host: &Text, owner: Option<&Package>) -> bool
    ensures { result ≡ declares_link_at host.now (option_copied owner.entry) }
{
    match owner {
        Some(owner) => declares_link(host, owner),
        None => false,
    }
}

/// The first text ends with the second, with ASCII case ignored.
fn ends_with(text: &[u8], end: &[u8]) -> bool
    ensures { result ≡ ends_with (lowered text.now) (lowered end.now) }
{
    text.len() >= end.len() && text[text.len() - end.len()..].eq_ignore_ascii_case(end)
}

/// The host of an approval is the host; or a star, a dot and an end of it.
fn covers(approved: &Text, host: &Text) -> bool
    ensures { result ≡ covers approved.now host.now }
{
    if is_same_host(approved, host) {
        return true;
    }
    match approved.as_str().as_bytes() {
        [b'*', b'.', end @ ..] => ends_with(host.as_str().as_bytes(), end),
        _ => false,
    }
}

/// The approval is the uid's, covers the host, and is of a host that an activity of the package asks for.
fn counts_for(owner: Option<&Package>, host: &Text, uid: u32, link: &Link) -> bool
    ensures { result ≡ (((link.now.uid == uid) && covers link.now.host host.now)
        && declares_link_at link.now.host (option_copied owner.entry)) }
{
    link.uid == uid && covers(&link.host, host) && declares_link_at(&link.host, owner)
}

/// The package of the uid is approved for the host.
fn is_approved_for(installed: &Installed, host: &Text, uid: u32) -> bool
    ensures { result ≡ is_approved_for installed.now host.now uid }
{
    let owner = installed.package_at(uid);
    installed
        .links()
        .as_slice()
        .iter()
        .any(|link| counts_for(owner, host, uid, link))
}

/// An activity that isn't a browser, of a package that is approved for the host.
fn takes_link(installed: &Installed, host: &Text, candidate: &Candidate) -> bool
    ensures { result ≡ takes_link installed.now host.now candidate.now }
{
    !candidate.finding.browses && is_approved_for(installed, host, candidate.hit.uid)
}

/// The hit's package was installed later, or is the same and declares it later.
fn is_later(hit: &Hit, other: &Hit) -> bool
    ensures { result ≡ is_later hit.now other.now }
{
    hit.uid > other.uid || hit.uid == other.uid && hit.place > other.place
}

/// The later of a hit and the last one so far, if there is one.
fn later_of<'a>(last: Option<&'a Hit>, hit: &'a Hit) -> &'a Hit
    ensures { result.now ≡ later_after (option_copied last.entry) hit.now }
{
    match last {
        Some(last) if !is_later(hit, last) => last,
        _ => hit,
    }
}

/// Of the activities that take a link to the host the last one.
fn last_taking<'a>(
    installed: &Installed,
    found: &'a List<Candidate>,
    host: &Text,
) -> Option<&'a Hit>
    ensures { option_copied result ≡ last_of (filter (takes_link installed.now host.now) found.now) }
{
    let mut last = None;
    for candidate in found.as_slice() {
        if takes_link(installed, host, candidate) {
            last = Some(later_of(last, &candidate.hit));
        }
    }
    last
}

/// The activity that a link to the host opens, if a package is approved for it.
pub(crate) fn approved_hit<'a>(
    installed: &Installed,
    found: &'a List<Candidate>,
    host: Option<&Text>,
) -> Option<&'a Hit>
    ensures { option_copied result ≡ approved_hit installed.now found.now (option_copied host.entry) }
{
    match host {
        Some(host) => last_taking(installed, found, host),
        None => None,
    }
}
