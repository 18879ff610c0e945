//! Why an offer is skipped.
ghost use Rattle.std.specs.Prelude.{◌≡◌, IfOk, option_copied};
ghost use Rattle.am_model.specs.Receivers.{is_declared, is_exempt, is_unaimed, lacks, skip_of};
ghost use Rattle.am_resolve.specs.Ranking.{offer_of};

use crate::names::is_stopped;
use crate::offers::Offer;
use am_gates::{holds, refusal};
use am_installed::Installed;
use am_types::{Aim, Intent, List, Rule, Text};
use std::alloc::AllocError;

/// The first rule by which an offer is skipped; none if the receiver is admitted. `required` is
/// what the sender requires.
///
/// # Errors
///
/// `AllocError` if memory runs out.
pub fn skip_of(
    installed: &Installed,
    intent: &Intent,
    sender: u32,
    required: Option<&Text>,
    offer: &Offer,
) -> Result<Option<Rule>, AllocError>
    ensures { IfOk result
        (λ skip. skip ≡ skip_of installed.now intent.now sender (option_copied required.entry) (offer_of offer.now)) }
{
    if intent.flags.registered_only && is_declared(&offer.aim) {
        return Ok(Some(Rule::RegisteredOnly));
    }
    if is_declared(&offer.aim) && offer.uid != sender && is_unaimed(installed.exempt(), intent) {
        return Ok(Some(Rule::ManifestImplicit));
    }
    if !intent.flags.include_stopped && is_stopped(installed, offer.uid) {
        return Ok(Some(Rule::StoppedPackage));
    }
    let (uid, exported, permission) = (offer.uid, offer.exported, offer.permission);
    match refusal(sender, uid, exported, permission, installed.grants())? {
        Some(rule) => Ok(Some(rule)),
        None => lacks(installed, uid, required),
    }
}

/// The receiver is a manifest's.
fn is_declared(aim: &Aim) -> bool
    ensures { result ≡ is_declared aim.now }
{
    match aim {
        Aim::Declared(_) => true,
        Aim::Registered(_) => false,
    }
}

/// The intent names neither a component nor a package, and its action isn't exempt.
fn is_unaimed(exempt: &List<Text>, intent: &Intent) -> bool
    ensures { result ≡ is_unaimed exempt.now intent.now }
{
    intent.component.is_none() && intent.package.is_none() && !is_exempt(exempt, &intent.action)
}

/// The intent has an action that is exempt.
fn is_exempt(exempt: &List<Text>, action: &Option<Text>) -> bool
    ensures { result ≡ is_exempt exempt.now action.now }
{
    match action {
        None => false,
        Some(action) => exempt.as_slice().contains(action),
    }
}

/// The receiver lacks what the sender requires.
fn lacks(
    installed: &Installed,
    uid: u32,
    required: Option<&Text>,
) -> Result<Option<Rule>, AllocError>
    ensures { IfOk result (λ lack. lack ≡ lacks installed.now uid (option_copied required.entry)) }
{
    match required {
        Some(permission) if !holds(uid, permission, installed.grants()) => {
            Ok(Some(Rule::ReceiverLacks(permission.clone()?)))
        }
        _ => Ok(None),
    }
}
