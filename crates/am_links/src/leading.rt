//! What is left of the activities that a web intent finds.
ghost use Rattle.std.specs.Prelude.{◌≡◌, IfOk, option_copied};
ghost use Rattle.std.specs.List.{filter, list_any};
ghost use Rattle.std.specs.Option.{is_some, option_map};
ghost use Rattle.am_model.specs.Candidates.{hits_of};
ghost use Rattle.am_model.specs.Links.{is_hit, is_left, keeps_app, keeps_browser, leading, leading_of, left_of, phone_narrowed, unless_none_left};
ghost use Rattle.am_links.specs.Led.{led_by};

use crate::approvals::approved_hit;
use crate::browsers::chosen_browser;
use crate::web::{is_web, link_host};
use am_installed::Installed;
use am_types::{Candidate, Hit, Intent, List, NoMemory};
use std::alloc::{AllocError, Global};

/// What decides which of the activities that a web intent finds are left.
#[derive(Drop)]
pub struct Leading {
    /// The intent is a link.
    is_link: bool,
    /// The activity that is approved for the link.
    approved: Option<Hit>,
    /// The chosen browser.
    browser: Option<Hit>,
}

/// What is left of the activities that a web intent finds, and what decided it.
#[derive(Drop)]
pub struct Narrowed {
    /// Nothing decides if the activities aren't narrowed.
    pub leading: Option<Leading>,
    /// In the order in which they are found.
    pub left: List<Hit>,
}

impl Narrowed {
    /// The activities that are left. Takes no memory.
    pub fn into_left(self) -> List<Hit>
        ensures { result ≡ self.left }
    {
        let Narrowed { leading, left } = self;
        drop(leading);
        left
    }
}

impl Leading {
    /// Whether an activity is approved for the link. Takes no memory.
    pub fn has_approved(&self) -> bool
        ensures { result ≡ is_some self.now.approved }
    {
        self.approved.is_some()
    }
}

/// The hit is that one.
fn is_hit(one: &Hit, hit: &Hit) -> bool
    ensures { result ≡ is_hit one.now hit.now }
{
    one.component.package == hit.component.package && one.component.class == hit.component.class
}

/// An activity that isn't a browser is left: always if the intent is no link; otherwise if it is the approved one.
fn keeps_app(is_link: bool, approved: &Option<Hit>, hit: &Hit) -> bool
    ensures { result ≡ keeps_app is_link approved.now hit.now }
{
    if !is_link {
        return true;
    }
    match approved {
        Some(last) => is_hit(last, hit),
        None => false,
    }
}

/// A browser is left: if no activity is approved, all, or the chosen one.
fn keeps_browser(approved: &Option<Hit>, browser: &Option<Hit>, hit: &Hit) -> bool
    ensures { result ≡ keeps_browser approved.now browser.now hit.now }
{
    match (approved, browser) {
        (Some(_), _) => false,
        (None, None) => true,
        (None, Some(browser)) => is_hit(browser, hit),
    }
}

/// Whether the candidate is left. Takes no memory.
pub fn is_left(leads: &Leading, candidate: &Candidate) -> bool
    ensures { result ≡ is_left (led_by leads.now) candidate.now }
{
    if candidate.finding.browses {
        keeps_browser(&leads.approved, &leads.browser, &candidate.hit)
    } else {
        keeps_app(leads.is_link, &leads.approved, &candidate.hit)
    }
}

/// A copy of the hit, if there is one.
fn cloned(hit: Option<&Hit>) -> Result<Option<Hit>, AllocError>
    ensures { IfOk result (λ copy. copy ≡ option_copied hit.entry) }
{
    match hit {
        Some(hit) => Ok(Some(hit.clone()?)),
        None => Ok(None),
    }
}

/// What decides for an intent that finds these candidates.
fn find_leading(
    installed: &Installed,
    intent: &Intent,
    default_only: bool,
    found: &List<Candidate>,
) -> Result<Leading, NoMemory>
    ensures { IfOk result (λ leads. led_by leads ≡ leading installed.now intent.now default_only found.now) }
{
    let host = link_host(intent, default_only);
    let approved = cloned(approved_hit(installed, found, host))?;
    let browser = cloned(chosen_browser(installed.browser(), found))?;
    Ok(Leading {
        is_link: host.is_some(),
        approved,
        browser,
    })
}

/// Some of the candidates is left.
fn leaves_some(leads: &Leading, found: &List<Candidate>) -> bool
    ensures { result ≡ list_any (is_left (led_by leads.now)) found.now }
{
    found
        .as_slice()
        .iter()
        .any(|candidate| is_left(leads, candidate))
}

/// What decides, unless it leaves none of the candidates.
fn unless_none_left(leads: Leading, found: &List<Candidate>) -> Option<Leading>
    ensures { option_map led_by result ≡ unless_none_left (led_by leads) found.now }
{
    if leaves_some(&leads, found) {
        return Some(leads);
    }
    drop(leads);
    None
}

/// What decides for the activities that an intent finds, if they are narrowed: those of an intent that views no web
/// page aren't, nor is a single one.
fn leading_of(
    installed: &Installed,
    intent: &Intent,
    default_only: bool,
    found: &List<Candidate>,
) -> Result<Option<Leading>, NoMemory>
    ensures { IfOk result
        (λ leads. option_map led_by leads ≡ leading_of installed.now intent.now default_only found.now) }
{
    if found.as_slice().len() < 2 || !is_web(intent) {
        return Ok(None);
    }
    let leads = find_leading(installed, intent, default_only, found)?;
    Ok(unless_none_left(leads, found))
}

/// The candidates that are left, in their order.
fn keep_left(leads: &Leading, found: List<Candidate>) -> List<Candidate>
    ensures { result ≡ filter (is_left (led_by leads.now)) found }
{
    let mut candidates = found.into_items();
    candidates.retain(|candidate| is_left(leads, candidate));
    List::new(candidates)
}

/// The components that candidates are, in their order.
pub fn hits_of(alloc: Global, found: List<Candidate>) -> Result<List<Hit>, NoMemory>
    ensures { IfOk result (λ hits. hits ≡ hits_of found) }
{
    let hits = found
        .into_items()
        .into_iter()
        .map(|candidate| candidate.hit)
        .collect::<Vec<Hit>>(alloc)?;
    Ok(List::new(hits))
}

/// The components that are left, in their order, if something decides; otherwise all.
fn left_of(
    alloc: Global,
    leads: &Option<Leading>,
    found: List<Candidate>,
) -> Result<List<Hit>, NoMemory>
    ensures { IfOk result (λ left. left ≡ hits_of (left_of (option_map led_by leads.now) found)) }
{
    match leads {
        Some(leads) => hits_of(alloc, keep_left(leads, found)),
        None => hits_of(alloc, found),
    }
}

/// What a phone's narrowing leaves of the activities that an intent finds. A query for activities that list the default
/// category, or a start, is `default_only`.
pub fn narrow(
    alloc: Global,
    installed: &Installed,
    intent: &Intent,
    default_only: bool,
    found: List<Candidate>,
) -> Result<Narrowed, NoMemory>
    ensures leading { IfOk result (λ narrowed. option_map led_by narrowed.leading
        ≡ leading_of installed.now intent.now default_only found) }
    ensures left { IfOk result
        (λ narrowed. narrowed.left ≡ hits_of (phone_narrowed installed.now intent.now default_only found)) }
{
    let leading = leading_of(installed, intent, default_only, &found)?;
    let left = left_of(alloc, &leading, found)?;
    Ok(Narrowed { leading, left })
}
