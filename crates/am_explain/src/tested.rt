//! The outcome of testing the filters of a component against an intent.
ghost use Rattle.std.specs.Prelude.{◌≡◌, ◌+◌, ◌≤◌, ◌++◌, ◌&&◌, ◌||◌, IfOk, OnOk, is_none, length};
ghost use Rattle.am_types.specs.declared.device.Rules.TheVariants.{Android12, Profile};
ghost use Rattle.am_model.specs.Accounts.{listed};
ghost use Rattle.am_model.specs.Candidates.{counted_priority, finding_by};
ghost use Rattle.am_model.specs.Cuts.{unfound_why, unheard_why};
ghost use Rattle.am_model.specs.Filters.{is_empty};
ghost use Rattle.am_filter.specs.Answers.{answer_of};
ghost use Rattle.am_index.specs.Lookups.{search_of};
ghost use Rattle.am_explain.specs.Tests.{tested_of, with_finding, with_priority};

use am_filter::{finds, hears};
use am_index::{Search, counted_priority, earlier, finding_by, greatest, plain_finding};
use am_types::{Filter, Finding, Intent, Kind, List, NoMemory, Rules, Steps, Why};
use std::alloc::Global;
use std::sync::ledger::Ledger;

/// The outcome of testing the filters of a component against an intent.
#[derive(Drop)]
pub(crate) enum Tested {
    /// It is found: how, and under the profile whether a filter that the intent passes lists no authority.
    Passed(Finding, bool),
    /// It isn't: the reason for each filter.
    Failed(List<Why>),
}

/// Tests each filter once, which is a step.
pub(crate) fn ask_filters<L: Ledger>(
    alloc: Global,
    search: &Search<'_>,
    filters: &List<Filter>,
    steps: &mut Steps<L>,
) -> Result<Tested, NoMemory>
    ensures tested { IfOk result (λ tested. tested ≡ tested_of (search_of search.now) filters.now) }
    ensures tests { steps.new ≤ steps.old + length filters.now }
{
    match search.rules {
        Rules::Profile => ask_all(alloc, search, filters, steps),
        Rules::Android12 => ask_in_turn(alloc, search, filters, steps),
    }
}

/// Tests each filter for the profile: the greatest priority counts.
fn ask_all<L: Ledger>(
    alloc: Global,
    search: &Search<'_>,
    filters: &List<Filter>,
    steps: &mut Steps<L>,
) -> Result<Tested, NoMemory>
    requires { search.now.rules ≡ Profile }
    ensures tested { IfOk result (λ tested. tested ≡ tested_of (search_of search.now) filters.now) }
    ensures tests { steps.new ≤ steps.old + length filters.now }
{
    let mut best = None;
    let mut any_host = false;
    let mut reasons = Vec::new(alloc);
    for filter in filters.as_slice() {
        let reason = test(search, filter, steps);
        best = with_priority(search.kind, filter, reason, best);
        any_host = or_takes_all_hosts(any_host, reason, filter);
        add_reason(&mut reasons, reason)?;
    }
    match best {
        Some(priority) => Ok(Tested::Passed(plain_finding(priority), any_host)),
        None => Ok(Tested::Failed(List::new(reasons))),
    }
}

/// Tests each filter for a phone: the first that it comes upon counts.
fn ask_in_turn<L: Ledger>(
    alloc: Global,
    search: &Search<'_>,
    filters: &List<Filter>,
    steps: &mut Steps<L>,
) -> Result<Tested, NoMemory>
    requires { search.now.rules ≡ Android12 }
    ensures tested { IfOk result (λ tested. tested ≡ tested_of (search_of search.now) filters.now) }
    ensures tests { steps.new ≤ steps.old + length filters.now }
{
    let mut first = None;
    let mut reasons = Vec::new(alloc);
    for filter in filters.as_slice() {
        let reason = test(search, filter, steps);
        first = with_finding(search, filter, reason, first);
        add_reason(&mut reasons, reason)?;
    }
    match first {
        Some(finding) => Ok(Tested::Passed(finding, false)),
        None => Ok(Tested::Failed(List::new(reasons))),
    }
}

/// The only place that tests a filter of a component: why the intent doesn't find it, if it doesn't. Each call is
/// counted.
fn test<L: Ledger>(search: &Search<'_>, filter: &Filter, steps: &mut Steps<L>) -> Option<Why>
    ensures reason { result
        ≡ unfound_why search.now.rules filter.now search.now.intent.now search.now.need_default }
    ensures tests { steps.new ≡ steps.old + 1 }
{
    steps.tick();
    reason_of(finds(search.rules, filter, search.intent, search.need_default))
}

/// The only place that tests the filter of a registered receiver: why the intent doesn't find it, if it doesn't. Each
/// call is counted.
pub(crate) fn test_registered<L: Ledger>(
    rules: Rules,
    filter: &Filter,
    intent: &Intent,
    steps: &mut Steps<L>,
) -> Option<Why>
    ensures reason { result ≡ unheard_why rules filter.now intent.now }
    ensures tests { steps.new ≡ steps.old + 1 }
{
    steps.tick();
    reason_of(hears(rules, filter, intent))
}

/// The reason of an answer that isn't Ok.
fn reason_of(answer: Result<(), Why>) -> Option<Why>
    ensures { answer ≡ answer_of result }
{
    match answer {
        Ok(()) => None,
        Err(reason) => Some(reason),
    }
}

/// The best priority so far, or the filter's priority, if the filter is passed and its priority is greater.
fn with_priority(kind: Kind, filter: &Filter, reason: Option<Why>, best: Option<i32>) -> Option<i32>
    ensures { result ≡ with_priority reason (counted_priority kind filter.now.priority) best }
{
    match reason {
        None => Some(greatest(counted_priority(kind, filter.priority), best)),
        Some(_) => best,
    }
}

/// The first finding so far, or that by one more filter, if the filter is found and comes first.
fn with_finding(
    search: &Search<'_>,
    filter: &Filter,
    reason: Option<Why>,
    first: Option<Finding>,
) -> Option<Finding>
    ensures { result ≡ with_finding reason (finding_by (search_of search.now) filter.now) first }
{
    match reason {
        None => Some(earlier(first, finding_by(search, filter))),
        Some(_) => first,
    }
}

/// It already held, or the filter is passed and lists no authority.
fn or_takes_all_hosts(any_host: bool, reason: Option<Why>, filter: &Filter) -> bool
    ensures { result ≡ (any_host || (is_none reason && is_empty filter.now.authorities)) }
{
    any_host || (reason.is_none() && filter.authorities.as_slice().is_empty())
}

/// Adds the reason, if there is one.
fn add_reason(reasons: &mut Vec<Why>, reason: Option<Why>) -> Result<(), NoMemory>
    ensures { OnOk result (reasons.new.items ≡ reasons.old.items ++ listed reason) }
{
    if let Some(reason) = reason {
        reasons.push(reason)?;
    }
    Ok(())
}
