//! Who a broadcast is offered to.
ghost use Rattle.std.specs.Prelude.{◌≡◌, ◌++◌, ◌+◌, ◌≤◌, ◌∷◌, [], false, length, map, IfOk, OnOk, IsSome, option_copied};
ghost use Rattle.std.specs.List.Sorted.{IsStrictlyIncreasing};
ghost use Rattle.am_types.specs.declared.manifest.Kind.TheVariants.{Receiver};
ghost use Rattle.am_model.specs.Candidates.{hits};
ghost use Rattle.am_model.specs.Receivers.{declared_offers, finds_registered, receivers};
ghost use Rattle.am_model.specs.Sound.{uids_of};
ghost use Rattle.am_resolve.specs.Ranking.{decl_at, offer_of, ranked_of, ranked_of_hit, ranked_of_registered};

use crate::names::is_for;
use crate::offers::{Broadcast, Offer, Ranked, registered_offer};
use crate::order::in_order;
use crate::skips::skip_of;
use am_index::is_heard;
use am_installed::{Installed, decl_in, package_at};
use am_types::{
    Aim, Decl, Hit, Intent, Kind, List, NoMemory, Package, Receiving, Registration, Steps,
};
use std::alloc::Global;
use std::sync::ledger::Ledger;

/// Who the broadcast is offered to, by falling priority, each with the rule by which it is skipped.
/// At a tie registered receivers come first, by number, then the manifests' by uid and place.
/// `found` is what the intent finds among the manifests' receivers. A step is a test of a registered
/// receiver's filter.
pub(crate) fn receivers<L: Ledger>(
    alloc: Global,
    sent: &Broadcast,
    found: &List<Hit>,
    steps: &mut Steps<L>,
) -> Result<List<Receiving>, NoMemory>
    requires { found.now ≡ hits sent.now.installed.now.rules sent.now.installed.now.packages Receiver sent.now.intent.now false }
    ensures receivers { IfOk result (λ receivings. receivings
        ≡ receivers sent.now.installed.now sent.now.intent.now sent.now.sender (option_copied sent.now.required)) }
    ensures tests { steps.new ≤ steps.old + length sent.now.installed.now.registered }
    ensures explicit { IsSome sent.now.intent.now.component → steps.new ≡ steps.old }
{
    let mut ranked = Vec::new(alloc);
    add_registered(&mut ranked, sent, steps)?;
    add_declared(&mut ranked, sent, found)?;
    in_order(alloc, ranked)
}

/// Adds the registered receivers that the intent finds, in their order.
fn add_registered<L: Ledger>(
    ranked: &mut Vec<Ranked>,
    sent: &Broadcast,
    steps: &mut Steps<L>,
) -> Result<(), NoMemory>
    ensures added { OnOk result (ranked.new.items
        ≡ ranked.old.items ++ ranked_of_registered sent.now sent.now.installed.now.registered) }
    ensures tests { steps.new ≤ steps.old + length sent.now.installed.now.registered }
    ensures explicit { IsSome sent.now.intent.now.component → steps.new ≡ steps.old }
{
    for registration in sent.installed.registered().as_slice() {
        if finds_registered(sent.installed, sent.intent, registration, steps) {
            add_offer(ranked, sent, registered_offer(registration))?;
        }
    }
    Ok(())
}

/// The intent finds the registered receiver: it names no component and no other package, and
/// passes its filter, which is tested last.
fn finds_registered<L: Ledger>(
    installed: &Installed,
    intent: &Intent,
    registration: &Registration,
    steps: &mut Steps<L>,
) -> bool
    ensures finds { result ≡ finds_registered installed.now.rules installed.now.packages intent.now registration.now }
    ensures tests { steps.new ≤ steps.old + 1 }
    ensures explicit { IsSome intent.now.component → steps.new ≡ steps.old }
{
    intent.component.is_none()
        && is_for(installed, intent, registration.uid)
        && is_heard(installed.rules(), &registration.filter, intent, steps)
}

/// Adds the manifests' receivers that were found, in their order.
fn add_declared(
    ranked: &mut Vec<Ranked>,
    sent: &Broadcast,
    found: &List<Hit>,
) -> Result<(), NoMemory>
    requires { found.now ≡ hits sent.now.installed.now.rules sent.now.installed.now.packages Receiver sent.now.intent.now false }
    ensures { OnOk result (ranked.new.items
        ≡ ranked.old.items ++ map (ranked_of sent.now)
        (declared_offers sent.now.installed.now.packages found.now)) }
{
    let packages = sent.installed.packages();
    for hit in found.as_slice() {
        add_hit(ranked, sent, packages, hit)?;
    }
    Ok(())
}

/// Adds a manifest's receiver that was found.
fn add_hit(
    ranked: &mut Vec<Ranked>,
    sent: &Broadcast,
    packages: &List<Package>,
    hit: &Hit,
) -> Result<(), NoMemory>
    requires { IsStrictlyIncreasing (uids_of packages.now) }
    ensures { OnOk result (ranked.new.items
        ≡ ranked.old.items ++ ranked_of_hit sent.now packages.now hit.now) }
{
    let Some(decl) = decl_at(packages, hit) else {
        return Ok(());
    };
    let aim = Aim::Declared(hit.component.clone()?);
    let offer = declared_offer(hit, aim, decl);
    add_offer(ranked, sent, offer)
}

/// The component of a hit, found by the uid of its package.
fn decl_at<'a>(packages: &'a List<Package>, hit: &Hit) -> Option<&'a Decl>
    requires { IsStrictlyIncreasing (uids_of packages.now) }
    ensures { option_copied result ≡ decl_at packages.now hit.now }
{
    match package_at(packages, hit.uid) {
        None => None,
        Some(owner) => decl_in(Kind::Receiver, &hit.component.class, &owner.decls),
    }
}

/// The offer to a manifest's receiver.
fn declared_offer<'a>(hit: &Hit, aim: Aim, decl: &'a Decl) -> Offer<'a>
    ensures { offer_of result
        ≡ record {
          uid = hit.now.uid;
          aim = aim;
          priority = hit.now.priority;
          exported = decl.now.exported;
          permission = decl.now.permission;
        } }
{
    Offer {
        uid: hit.uid,
        aim,
        priority: hit.priority,
        exported: decl.exported,
        permission: decl.permission.as_ref(),
    }
}

/// Adds what becomes of an offer.
fn add_offer(ranked: &mut Vec<Ranked>, sent: &Broadcast, offer: Offer) -> Result<(), NoMemory>
    ensures { OnOk result (ranked.new.items
        ≡ ranked.old.items ++ ranked_of sent.now (offer_of offer.entry) ∷ []) }
{
    let skip = skip_of(
        sent.installed,
        sent.intent,
        sent.sender,
        sent.required,
        &offer,
    )?;
    let receiving = Receiving {
        uid: offer.uid,
        aim: offer.aim,
        skip,
    };
    ranked.push(Ranked {
        priority: offer.priority,
        receiving,
    })?;
    Ok(())
}
