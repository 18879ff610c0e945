//! What becomes of a component that an intent finds or names.
ghost use Rattle.std.specs.Prelude.{◌≡◌, IfOk, false, option_copied};
ghost use Rattle.std.specs.List.{list_any};
ghost use Rattle.am_types.specs.declared.manifest.Kind.TheVariants.{Service};
ghost use Rattle.am_model.specs.Candidates.{hits};
ghost use Rattle.am_model.specs.Targets.{host_to_view, takes_any_host};
ghost use Rattle.am_model.specs.Accounts.{first_of, found_service, left_out, left_out_for_browser, offer_to, offered, profile_found_activity, sending_rule, started, unless_kept, unless_refused};
ghost use Rattle.am_resolve.specs.Ranking.{offer_of};
ghost use Rattle.am_explain.specs.Asking.{question_of};
ghost use Rattle.am_explain.specs.Contests.{IsLed, is_below};

use crate::asking::Question;
use crate::contest::Leaders;
use crate::naming::{component_of, is_that};
use am_gates::{is_withheld, refusal};
use am_installed::Installed;
use am_resolve::{Offer, approves, host_to_view, skip_of};
use am_types::{
    Aim, Component, Decl, Intent, List, Narrowing, NoMemory, Package, Rule, Standing, Text,
};

/// A component that is started: the gate may refuse the caller.
pub(crate) fn started(
    installed: &Installed,
    caller: u32,
    owner: &Package,
    decl: &Decl,
) -> Result<Standing, NoMemory>
    ensures { IfOk result (λ said. said ≡ started installed.now caller owner.now decl.now) }
{
    let rule = refusal(
        caller,
        owner.uid,
        decl.exported,
        decl.permission.as_ref(),
        installed.grants(),
    )?;
    Ok(unless_refused(rule))
}

/// Refused by the rule; reached if there is none.
fn unless_refused(rule: Option<Rule>) -> Standing
    ensures { result ≡ unless_refused rule }
{
    match rule {
        Some(rule) => Standing::Refused(rule),
        None => Standing::Reached,
    }
}

/// Left out, unless the component is kept.
pub(crate) fn unless_kept(kept: bool, narrowing: Narrowing) -> Option<Narrowing>
    ensures { result ≡ unless_kept kept narrowing }
{
    if kept { None } else { Some(narrowing) }
}

/// Left out in favor of the browser that the device names; without a browser, of those that take any host.
fn left_out_for_browser(browser: Option<&Text>, name: &Text, any_host: bool) -> Option<Narrowing>
    ensures { result ≡ left_out_for_browser (option_copied browser.entry) name.now any_host }
{
    match browser {
        Some(browser) => unless_kept(name == browser, Narrowing::Browser),
        None => unless_kept(any_host, Narrowing::General),
    }
}

/// The reason for which the narrowing leaves an activity out: only a web intent, which has a host, is narrowed.
fn left_out(
    installed: &Installed,
    intent: &Intent,
    owner: &Package,
    some_approved: bool,
    any_host: bool,
) -> Option<Narrowing>
    ensures { result ≡ left_out installed.now (host_to_view intent.now) owner.now some_approved any_host }
{
    let Some(host) = host_to_view(intent) else {
        return None;
    };
    if some_approved {
        unless_kept(
            approves(installed.links(), host, owner.uid),
            Narrowing::Approved,
        )
    } else {
        left_out_for_browser(installed.browser(), &owner.name, any_host)
    }
}

/// The priority is below the other, if there is one.
pub(crate) fn is_below(priority: i32, greatest: Option<i32>) -> bool
    ensures { result ≡ is_below priority greatest }
{
    match greatest {
        None => false,
        Some(greatest) => priority < greatest,
    }
}

/// An activity that the intent finds with this priority under the profile; `any_host` tells whether a filter that the
/// intent passes lists no authority.
pub(crate) fn found_activity(
    installed: &Installed,
    question: &Question,
    leaders: &Leaders,
    owner: &Package,
    decl: &Decl,
    priority: i32,
    any_host: bool,
) -> Result<Standing, NoMemory>
    requires led { IsLed installed.now question.now.intent.now leaders.now }
    requires any_host { any_host ≡ list_any (takes_any_host question.now.intent.now) decl.now.filters }
    ensures { IfOk result
        (λ said. said ≡ profile_found_activity installed.now (question_of question.now) owner.now decl.now priority) }
{
    let narrowing = left_out(
        installed,
        question.intent,
        owner,
        leaders.approved,
        any_host,
    );
    if let Some(narrowing) = narrowing {
        return Ok(Standing::Narrowed(narrowing));
    }
    if is_below(priority, leaders.greatest) {
        return Ok(Standing::Outranked);
    }
    if leaders.tied {
        return Ok(Standing::Tied);
    }
    started(installed, question.caller, owner, decl)
}

/// A service that the intent finds; `first` is the first such service.
pub(crate) fn found_service(
    installed: &Installed,
    question: &Question,
    first: &Option<Component>,
    owner: &Package,
    decl: &Decl,
) -> Result<Standing, NoMemory>
    requires { first.now ≡ first_of (hits installed.now.rules installed.now.packages Service question.now.intent.now false) }
    ensures { IfOk result (λ said. said ≡ found_service installed.now (question_of question.now) owner.now decl.now) }
{
    if question.intent.package.is_none() {
        return Ok(Standing::Refused(Rule::ImplicitService));
    }
    if !is_that(first, owner, decl) {
        return Ok(Standing::Outranked);
    }
    started(installed, question.caller, owner, decl)
}

/// The rule by which the caller may not send the action, if it may not.
fn sending_rule(installed: &Installed, question: &Question) -> Option<Rule>
    ensures { result ≡ sending_rule installed.now (question_of question.now) }
{
    if is_withheld(
        installed.protected(),
        &question.intent.action,
        question.caller,
    ) {
        Some(Rule::ProtectedAction)
    } else {
        None
    }
}

/// A receiver that the broadcast is offered to: it may be skipped, and the caller may not be allowed
/// to send the action.
pub(crate) fn offered(
    installed: &Installed,
    question: &Question,
    offer: &Offer,
) -> Result<Standing, NoMemory>
    ensures { IfOk result (λ said. said ≡ offered installed.now (question_of question.now) (offer_of offer.now)) }
{
    let intent = question.intent;
    let skip = skip_of(
        installed,
        intent,
        question.caller,
        question.permission,
        offer,
    )?;
    if let Some(rule) = skip {
        return Ok(Standing::Refused(rule));
    }
    Ok(unless_refused(sending_rule(installed, question)))
}

/// The offer to a manifest's receiver.
fn offer_to<'a>(owner: &Package, decl: &'a Decl) -> Result<Offer<'a>, NoMemory>
    ensures { IfOk result (λ offer. offer_of offer ≡ offer_to owner.now decl.now) }
{
    let aim = Aim::Declared(component_of(owner, decl)?);
    Ok(Offer {
        uid: owner.uid,
        aim,
        priority: 0,
        exported: decl.exported,
        permission: decl.permission.as_ref(),
    })
}

/// A manifest's receiver that the broadcast is offered to.
pub(crate) fn offered_to(
    installed: &Installed,
    question: &Question,
    owner: &Package,
    decl: &Decl,
) -> Result<Standing, NoMemory>
    ensures { IfOk result
        (λ said. said ≡ offered installed.now (question_of question.now) (offer_to owner.now decl.now)) }
{
    let offer = offer_to(owner, decl)?;
    let standing = offered(installed, question, &offer);
    drop(offer);
    standing
}
