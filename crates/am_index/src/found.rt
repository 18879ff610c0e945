//! What an intent finds at the spots that are listed for it.
ghost use Rattle.std.specs.Prelude.{◌≡◌, ◌++◌, ◌+◌, ◌≤◌, Some, IfOk, OnOk, option_copied};
ghost use Rattle.std.specs.List.{slice_get};
ghost use Rattle.std.specs.List.Sorted.{IsStrictlyIncreasing};
ghost use Rattle.am_model.specs.Candidates.{candidate_at};
ghost use Rattle.am_model.specs.Sound.{uids_of};
ghost use Rattle.am_index.specs.Lookups.{candidate_of_spot, candidates_of_spots, cost_found, cost_of_spot, cost_of_spots, finding_found, search_of};

use crate::finding::{finding_in, plain_finding};
use crate::key::Spot;
use crate::search::Search;
use am_installed::package_at;
use am_types::{Candidate, Component, Decl, Finding, Hit, List, NoMemory, Package, Steps};
use std::alloc::Global;
use std::sync::ledger::Ledger;

/// What the intent finds at some spots, in their order.
pub(crate) fn candidates_of_spots<L: Ledger>(
    alloc: Global,
    packages: &List<Package>,
    search: &Search<'_>,
    spots: &[Spot],
    steps: &mut Steps<L>,
) -> Result<Vec<Candidate>, NoMemory>
    requires { IsStrictlyIncreasing (uids_of packages.now) }
    ensures found { IfOk result
        (λ found. found.items ≡ candidates_of_spots (search_of search.now) packages.now spots.now) }
    ensures most { steps.new ≤ steps.old + cost_of_spots packages.now search.now.intent.now spots.now }
    ensures least { steps.old ≤ steps.new }
{
    let mut found = Vec::new(alloc);
    for spot in spots {
        add_candidate(&mut found, packages, search, *spot, steps)?;
    }
    Ok(found)
}

/// Adds what the intent finds at a spot.
fn add_candidate<L: Ledger>(
    found: &mut Vec<Candidate>,
    packages: &List<Package>,
    search: &Search<'_>,
    spot: Spot,
    steps: &mut Steps<L>,
) -> Result<(), NoMemory>
    requires { IsStrictlyIncreasing (uids_of packages.now) }
    ensures candidate { OnOk result
        (found.new.items ≡ found.old.items ++ candidate_of_spot (search_of search.now) packages.now spot) }
    ensures tests { steps.new ≡ steps.old + cost_of_spot packages.now search.now.intent.now spot }
{
    let Some(owner) = package_at(packages, spot.uid) else {
        return Ok(());
    };
    let Some(decl) = decl_at(&owner.decls, spot.position) else {
        return Ok(());
    };
    match finding_found(search, decl, steps) {
        None => Ok(()),
        Some(finding) => push_candidate(found, owner, spot.place, decl, finding),
    }
}

/// The component at a position.
fn decl_at(decls: &List<Decl>, position: usize) -> Option<&Decl>
    ensures { option_copied result ≡ slice_get decls.now position }
{
    decls.as_slice().get(position)
}

/// Adds the component at this place, which is found so.
fn push_candidate(
    found: &mut Vec<Candidate>,
    owner: &Package,
    place: u32,
    decl: &Decl,
    finding: Finding,
) -> Result<(), NoMemory>
    ensures { OnOk result
        (found.new.items ≡ found.old.items ++ candidate_at owner.now place decl.now (Some finding)) }
{
    let component = Component {
        package: owner.name.clone()?,
        class: decl.class.clone()?,
    };
    let hit = Hit {
        component,
        uid: owner.uid,
        place,
        priority: finding.priority,
    };
    found.push(Candidate { hit, finding })?;
    Ok(())
}

/// How the intent finds a component that is listed for it.
fn finding_found<L: Ledger>(
    search: &Search<'_>,
    decl: &Decl,
    steps: &mut Steps<L>,
) -> Option<Finding>
    ensures finding { result ≡ finding_found (search_of search.now) search.now.intent.now.component decl.now }
    ensures tests { steps.new
        ≡ steps.old + cost_found search.now.intent.now.component search.now.intent.now decl.now }
{
    match &search.intent.component {
        Some(_) => Some(plain_finding(0)),
        None => finding_in(search, &decl.filters, steps),
    }
}
