//! How an intent finds a component by its filters, with each filter test counted.
ghost use Rattle.std.specs.Prelude.{◌≡◌, ◌+◌, if◌then◌else◌, count_by};
ghost use Rattle.std.specs.Option.{option_map};
ghost use Rattle.am_types.specs.declared.device.Rules.TheVariants.{Android12, Profile};
ghost use Rattle.am_model.specs.Candidates.{counted_priority, finding_by, finding_in, first_finding, greatest, plain_finding, priority_of};
ghost use Rattle.am_model.specs.Cuts.{finds, hears};
ghost use Rattle.am_index.specs.Groups.{in_data_group, in_group};
ghost use Rattle.am_index.specs.Keys.{is_bare, is_typed};
ghost use Rattle.am_index.specs.Lookups.{earlier, search_by, search_of};

use crate::search::Search;
use am_filter::{cut_of, finds, hears, is_browsers, lists, lists_default, reached};
use am_types::{Filter, Finding, Intent, Kind, List, Rules, Steps};
use std::sync::ledger::Ledger;

/// How the intent finds a component with these filters, if it does. Only filters of the intent's group
/// are tested.
pub(crate) fn finding_in<L: Ledger>(
    search: &Search<'_>,
    filters: &List<Filter>,
    steps: &mut Steps<L>,
) -> Option<Finding>
    ensures finding { result ≡ finding_in search.now.rules (search_of search.now) filters.now }
    ensures tests { steps.new ≡ steps.old + count_by (in_group search.now.intent.now) filters.now }
{
    match search.rules {
        Rules::Profile => plain(priority_of(search, filters, steps)),
        Rules::Android12 => first_finding(search, filters, steps),
    }
}

/// A component is found with this priority, if there is one.
fn plain(priority: Option<i32>) -> Option<Finding>
    ensures { result ≡ option_map plain_finding priority }
{
    match priority {
        None => None,
        Some(priority) => Some(plain_finding(priority)),
    }
}

/// A component is found with this priority, and nothing else counts. Takes no memory.
pub fn plain_finding(priority: i32) -> Finding
    ensures { result ≡ plain_finding priority }
{
    Finding {
        priority,
        lists_default: false,
        reaches: 0,
        cut: 0,
        browses: false,
    }
}

/// The greatest priority of the filters that the intent passes; none if it passes none.
fn priority_of<L: Ledger>(
    search: &Search<'_>,
    filters: &List<Filter>,
    steps: &mut Steps<L>,
) -> Option<i32>
    ensures priority { result ≡ priority_of (search_by Profile search.now) filters.now }
    ensures tests { steps.new ≡ steps.old + count_by (in_group search.now.intent.now) filters.now }
{
    let mut best = None;
    for filter in filters.as_slice() {
        if is_found(
            Rules::Profile,
            filter,
            search.intent,
            search.need_default,
            steps,
        ) {
            best = Some(greatest(counted_priority(search.kind, filter.priority), best));
        }
    }
    best
}

/// How a phone finds a component by the first of its filters that it comes upon and that the intent passes, if there
/// is one.
fn first_finding<L: Ledger>(
    search: &Search<'_>,
    filters: &List<Filter>,
    steps: &mut Steps<L>,
) -> Option<Finding>
    ensures finding { result ≡ first_finding (search_by Android12 search.now) filters.now }
    ensures tests { steps.new ≡ steps.old + count_by (in_group search.now.intent.now) filters.now }
{
    let mut first = None;
    for filter in filters.as_slice() {
        if is_found(
            Rules::Android12,
            filter,
            search.intent,
            search.need_default,
            steps,
        ) {
            first = Some(earlier(first, finding_by(search, filter)));
        }
    }
    first
}

/// How the intent finds a component by this filter. Takes no memory.
pub fn finding_by(search: &Search<'_>, filter: &Filter) -> Finding
    ensures { result ≡ finding_by (search_of search.now) filter.now }
{
    let priority = counted_priority(search.kind, filter.priority);
    let cut = cut_of(filter, search.intent).unwrap_or(0);
    Finding {
        priority,
        lists_default: lists_default(&filter.categories),
        reaches: reached(filter, &search.intent.uri),
        cut,
        browses: is_browsers(filter),
    }
}

/// The one of two findings that a phone comes upon first, where the second is by a later filter of the
/// manifest; the second, if there is no other. Takes no memory.
pub fn earlier(first: Option<Finding>, second: Finding) -> Finding
    ensures { result ≡ earlier first second }
{
    match first {
        None => second,
        Some(first) => {
            if second.cut < first.cut {
                second
            } else {
                first
            }
        }
    }
}

/// Whether the intent finds the filter of an app, which is tested only if it belongs to the intent's
/// group: a step. Takes no memory.
pub fn is_found<L: Ledger>(
    rules: Rules,
    filter: &Filter,
    intent: &Intent,
    need_default: bool,
    steps: &mut Steps<L>,
) -> bool
    ensures finds { result ≡ finds rules filter.now intent.now need_default }
    ensures tests { steps.new ≡ steps.old + (if in_group intent.now filter.now then 1 else 0) }
{
    if !is_tested(intent, filter, steps) {
        return false;
    }
    finds(rules, filter, intent, need_default).is_ok()
}

/// Whether the intent finds the filter of a registered receiver, which is tested only if it belongs to
/// the intent's group: a step. Takes no memory.
pub fn is_heard<L: Ledger>(
    rules: Rules,
    filter: &Filter,
    intent: &Intent,
    steps: &mut Steps<L>,
) -> bool
    ensures hears { result ≡ hears rules filter.now intent.now }
    ensures tests { steps.new ≡ steps.old + (if in_group intent.now filter.now then 1 else 0) }
{
    if !is_tested(intent, filter, steps) {
        return false;
    }
    hears(rules, filter, intent).is_ok()
}

/// The filter belongs to the intent's group and so is tested, which is a step.
fn is_tested<L: Ledger>(intent: &Intent, filter: &Filter, steps: &mut Steps<L>) -> bool
    ensures group { result ≡ in_group intent.now filter.now }
    ensures tests { steps.new ≡ steps.old + (if in_group intent.now filter.now then 1 else 0) }
{
    let belongs = in_group(intent, filter);
    if belongs {
        steps.tick();
    }
    belongs
}

/// The filter belongs to the intent's group.
fn in_group(intent: &Intent, filter: &Filter) -> bool
    ensures { result ≡ in_group intent.now filter.now }
{
    match &intent.action {
        Some(action) => lists(&filter.actions, action),
        None => in_data_group(intent, filter),
    }
}

/// The filter belongs to the group that the data of the intent asks for.
fn in_data_group(intent: &Intent, filter: &Filter) -> bool
    ensures { result ≡ in_data_group intent.now.uri intent.now.mime filter.now }
{
    match (&intent.uri, &intent.mime) {
        (None, None) => is_bare(filter),
        (Some(uri), None) => lists(&filter.schemes, &uri.scheme),
        (None, Some(_)) => is_typed(filter),
        (Some(uri), Some(_)) => is_typed(filter) || lists(&filter.schemes, &uri.scheme),
    }
}

/// The filter lists neither scheme nor type.
fn is_bare(filter: &Filter) -> bool
    ensures { result ≡ is_bare filter.now }
{
    filter.schemes.as_slice().is_empty() && filter.types.as_slice().is_empty()
}

/// The filter lists no scheme and some type.
fn is_typed(filter: &Filter) -> bool
    ensures { result ≡ is_typed filter.now }
{
    filter.schemes.as_slice().is_empty() && !filter.types.as_slice().is_empty()
}

/// The priority with which a filter counts: no package is privileged, so an activity's never
/// counts above 0.
pub fn counted_priority(kind: Kind, priority: i32) -> i32
    ensures { result ≡ counted_priority kind priority }
{
    match kind {
        Kind::Activity => priority.min(0),
        Kind::Service | Kind::Receiver => priority,
    }
}

/// The greater of a priority and another one, if there is one.
pub fn greatest(priority: i32, other: Option<i32>) -> i32
    ensures { result ≡ greatest priority other }
{
    match other {
        None => priority,
        Some(other) => priority.max(other),
    }
}
