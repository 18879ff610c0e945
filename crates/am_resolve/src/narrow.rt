//! Under the profile a start of a web intent is narrowed to the packages that are approved for the host; if there are none, to a
//! browser; if there is none either, to what takes any host.
ghost use Rattle.std.specs.Prelude.{◌≡◌, ◌+◌, ◌≤◌, true, if◌then◌else◌, IfOk, count_by, filter, option_copied};
ghost use Rattle.std.specs.List.{list_any};
ghost use Rattle.std.specs.List.Sorted.{IsStrictlyIncreasing};
ghost use Rattle.am_types.specs.declared.device.Rules.TheVariants.{Profile};
ghost use Rattle.am_types.specs.declared.manifest.Kind.TheVariants.{Activity};
ghost use Rattle.am_types.specs.declared.resolve.Hit.{Hit};
ghost use Rattle.am_model.specs.Boards.{package_at};
ghost use Rattle.am_model.specs.Candidates.{hits};
ghost use Rattle.am_model.specs.Sound.{uids_of};
ghost use Rattle.am_model.specs.Targets.{approves, host_to_view, is_approved, is_general, takes_any_host, web_hits};
ghost use Rattle.am_model.specs.Texts.{is_same, lowered};
ghost use Rattle.am_index.specs.Groups.{group_size, in_group};
ghost use Rattle.am_resolve.specs.Narrowing.{cost_at, cost_in, cost_of, is_general_in};

use am_index::is_found;
use am_installed::{Installed, package_at};
use am_links::{are_web_categories, is_view, web_host};
use am_types::{Decl, Filter, Hit, Intent, Link, List, NoMemory, Package, Rules, Steps, Text};
use std::alloc::Global;
use std::sync::ledger::Ledger;

/// The host of a web intent, which asks to view a web page, with no other categories and for no
/// named app. Takes no memory.
pub fn host_to_view(intent: &Intent) -> Option<&Text>
    ensures { option_copied result ≡ host_to_view intent.now }
{
    if is_view(&intent.action)
        && are_web_categories(&intent.categories)
        && intent.component.is_none()
        && intent.package.is_none()
    {
        web_host(Rules::Profile, &intent.uri)
    } else {
        None
    }
}

/// The package of the uid is approved for the host, with ASCII case ignored. Takes no memory.
pub fn approves(links: &List<Link>, host: &Text, uid: u32) -> bool
    ensures { result ≡ approves links.now host.now uid }
{
    links
        .as_slice()
        .iter()
        .any(|link| link.uid == uid && is_same_host(&link.host, host))
}

/// The hit's package is approved for the host.
fn is_approved(links: &List<Link>, host: &Text, hit: &Hit) -> bool
    ensures { result ≡ is_approved links.now host.now hit.now }
{
    approves(links, host, hit.uid)
}

/// The hosts are the same, with ASCII case ignored.
fn is_same_host(host: &Text, other: &Text) -> bool
    ensures { result ≡ is_same (lowered host.now) (lowered other.now) }
{
    host.as_str().eq_ignore_ascii_case(other.as_str())
}

/// Some hit's package is approved for the host.
fn is_some_approved(links: &List<Link>, host: &Text, found: &List<Hit>) -> bool
    ensures { result ≡ list_any (is_approved links.now host.now) found.now }
{
    found
        .as_slice()
        .iter()
        .any(|hit| is_approved(links, host, hit))
}

/// The hits whose packages are approved for the host.
fn keep_approved(links: &List<Link>, host: &Text, found: List<Hit>) -> List<Hit>
    ensures { result ≡ filter (is_approved links.now host.now) found }
{
    let mut hits = found.into_items();
    hits.retain(|hit| is_approved(links, host, hit));
    List::new(hits)
}

/// The hits of a package.
fn keep_package(name: &Text, found: List<Hit>) -> List<Hit>
    ensures { result ≡ filter (λ (hit : Hit). is_same hit.component.«package» name.now) found }
{
    let mut hits = found.into_items();
    hits.retain(|hit| hit.component.package == *name);
    List::new(hits)
}

/// The intent passes the filter, which lists no authority.
fn takes_any_host<L: Ledger>(filter: &Filter, intent: &Intent, steps: &mut Steps<L>) -> bool
    ensures takes { result ≡ takes_any_host intent.now filter.now }
    ensures tests { steps.new ≤ steps.old + (if in_group intent.now filter.now then 1 else 0) }
{
    filter.authorities.as_slice().is_empty()
        && is_found(Rules::Profile, filter, intent, true, steps)
}

/// The intent passes one of the filters, which lists no authority.
fn some_takes_any_host<L: Ledger>(
    filters: &List<Filter>,
    intent: &Intent,
    steps: &mut Steps<L>,
) -> bool
    ensures takes { result ≡ list_any (takes_any_host intent.now) filters.now }
    ensures tests { steps.new ≤ steps.old + count_by (in_group intent.now) filters.now }
{
    for filter in filters.as_slice() {
        if takes_any_host(filter, intent, steps) {
            return true;
        }
    }
    false
}

/// Some component of the class has a filter that the intent passes and that lists no authority.
fn is_general_in<L: Ledger>(
    decls: &List<Decl>,
    class: &Text,
    intent: &Intent,
    steps: &mut Steps<L>,
) -> bool
    ensures general { result ≡ is_general_in intent.now class.now decls.now }
    ensures tests { steps.new ≤ steps.old + cost_in intent.now class.now decls.now }
{
    for decl in decls.as_slice() {
        if decl.class == *class && some_takes_any_host(&decl.filters, intent, steps) {
            return true;
        }
    }
    false
}

/// Some filter of the hit's component that the intent passes lists no authority.
fn is_general<L: Ledger>(
    packages: &List<Package>,
    intent: &Intent,
    hit: &Hit,
    steps: &mut Steps<L>,
) -> bool
    requires { IsStrictlyIncreasing (uids_of packages.now) }
    ensures general { result ≡ is_general packages.now intent.now hit.now }
    ensures tests { steps.new
        ≤ steps.old + cost_at intent.now hit.now.component.class (package_at packages.now hit.now.uid) }
{
    match package_at(packages, hit.uid) {
        None => false,
        Some(owner) => is_general_in(&owner.decls, &hit.component.class, intent, steps),
    }
}

/// The hits that take any host.
fn keep_general<L: Ledger>(
    alloc: Global,
    packages: &List<Package>,
    intent: &Intent,
    found: &List<Hit>,
    steps: &mut Steps<L>,
) -> Result<List<Hit>, NoMemory>
    requires { IsStrictlyIncreasing (uids_of packages.now) }
    ensures general { IfOk result (λ left. left ≡ filter (is_general packages.now intent.now) found.now) }
    ensures tests { steps.new ≤ steps.old + cost_of packages.now intent.now found.now }
{
    let mut left = Vec::new(alloc);
    for hit in found.as_slice() {
        if is_general(packages, intent, hit, steps) {
            left.push(hit.clone()?)?;
        }
    }
    Ok(List::new(left))
}

/// The hits of packages that are approved for the host; if there are none, those of a browser.
pub(crate) fn web_hits<L: Ledger>(
    alloc: Global,
    installed: &Installed,
    intent: &Intent,
    found: List<Hit>,
    host: &Text,
    steps: &mut Steps<L>,
) -> Result<List<Hit>, NoMemory>
    requires { found ≡ hits Profile installed.now.packages Activity intent.now true }
    ensures hits { IfOk result (λ left. left ≡ web_hits installed.now intent.now found host.now) }
    ensures tests { steps.new ≤ steps.old + group_size installed.now.packages Activity intent.now }
{
    if is_some_approved(installed.links(), host, &found) {
        return Ok(keep_approved(installed.links(), host, found));
    }
    match installed.browser() {
        Some(browser) => Ok(keep_package(browser, found)),
        None => keep_general(alloc, installed.packages(), intent, &found, steps),
    }
}
