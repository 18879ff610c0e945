//! The order of what an intent finds.
ghost use Rattle.std.specs.Prelude.{◌≡◌, IfOk};
ghost use Rattle.am_model.specs.Candidates.{in_turn, phone_cmp, phone_order, profile_order, then_default};
ghost use Rattle.am_index.specs.Lookups.{then_name, then_reach};

use am_types::{Candidate, List, NoMemory, Rules};
use std::cmp::{Ordering, Reverse};

/// The candidates in the order of the rules.
pub(crate) fn in_turn(rules: Rules, found: Vec<Candidate>) -> Result<List<Candidate>, NoMemory>
    ensures { IfOk result (λ ordered. ordered ≡ in_turn rules found.items) }
{
    match rules {
        Rules::Profile => profile_order(found),
        Rules::Android12 => phone_order(found),
    }
}

/// The candidates by falling priority; those of equal priority keep their order.
fn profile_order(mut found: Vec<Candidate>) -> Result<List<Candidate>, NoMemory>
    ensures { IfOk result (λ ordered. ordered ≡ profile_order found.items) }
{
    found.sort_by_key(|candidate| Reverse(candidate.hit.priority))?;
    Ok(List::new(found))
}

/// The candidates in a phone's order; those that it doesn't tell apart keep their order. (AOSP,
/// `ComponentResolver.RESOLVE_PRIORITY_SORTER`.)
fn phone_order(mut found: Vec<Candidate>) -> Result<List<Candidate>, NoMemory>
    ensures { IfOk result (λ ordered. ordered ≡ phone_order found.items) }
{
    found.sort_by(|a, b| phone_cmp(a, b))?;
    Ok(List::new(found))
}

/// By falling priority first.
fn phone_cmp(a: &Candidate, b: &Candidate) -> Ordering
    ensures { result ≡ phone_cmp a.now b.now }
{
    match b.hit.priority.cmp(&a.hit.priority) {
        Ordering::Equal => then_default(a, b),
        other => other,
    }
}

/// Then those whose filter lists the default category come first.
fn then_default(a: &Candidate, b: &Candidate) -> Ordering
    ensures { result ≡ then_default a.now b.now }
{
    match b.finding.lists_default.cmp(&a.finding.lists_default) {
        Ordering::Equal => then_reach(a, b),
        other => other,
    }
}

/// Then those in which the intent's data reach more.
fn then_reach(a: &Candidate, b: &Candidate) -> Ordering
    ensures { result ≡ then_reach a.now b.now }
{
    match b.finding.reaches.cmp(&a.finding.reaches) {
        Ordering::Equal => then_name(a, b),
        other => other,
    }
}

/// Then by the package's name, and then as they are found.
fn then_name(a: &Candidate, b: &Candidate) -> Ordering
    ensures { result ≡ then_name a.now b.now }
{
    match a.hit.component.package.cmp(&b.hit.component.package) {
        Ordering::Equal => a.finding.cut.cmp(&b.finding.cut),
        other => other,
    }
}
