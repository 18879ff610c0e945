//! What becomes of an activity that an intent finds on a phone.
ghost use Rattle.std.specs.Prelude.{◌≡◌, if◌then◌else◌, IfOk, true};
ghost use Rattle.std.specs.Option.{option_map};
ghost use Rattle.am_links.specs.Led.{led_by};
ghost use Rattle.am_model.specs.Accounts.{as_candidate, narrowing_of_app, narrowing_of_browser, phone_contest, phone_found_activity, phone_left_out};
ghost use Rattle.am_model.specs.Starts.{phone_left};
ghost use Rattle.am_explain.specs.Asking.{question_of};
ghost use Rattle.am_explain.specs.Contests.{IsPhoneLed};
ghost use Rattle.am_explain.specs.Laws.{is_reached};

use crate::asking::Question;
use crate::contest::PhoneLeaders;
use crate::naming::component_of;
use crate::reaching::{is_below, started, unless_kept};
use am_installed::Installed;
use am_links::{Leading, is_left};
use am_types::{Candidate, Decl, Finding, Hit, Narrowing, NoMemory, Package, Standing};

/// The component, found so, as a candidate; its place doesn't count.
fn as_candidate(owner: &Package, decl: &Decl, finding: Finding) -> Result<Candidate, NoMemory>
    ensures { IfOk result (λ candidate. candidate ≡ as_candidate owner.now decl.now finding) }
{
    let hit = Hit {
        component: component_of(owner, decl)?,
        uid: owner.uid,
        place: 0,
        priority: finding.priority,
    };
    Ok(Candidate { hit, finding })
}

/// What an activity is left out for: the approved one; without it an app for browsers, and a browser for the device's.
fn narrowing_of(leads: &Leading, browses: bool) -> Narrowing
    ensures { result
        ≡ (if browses then narrowing_of_browser leads.now.approved else narrowing_of_app leads.now.approved) }
{
    if leads.has_approved() {
        Narrowing::Approved
    } else if browses {
        Narrowing::Browser
    } else {
        Narrowing::General
    }
}

/// What a phone's narrowing leaves an activity out for, if it does.
fn left_out(
    leading: &Option<Leading>,
    owner: &Package,
    decl: &Decl,
    finding: Finding,
) -> Result<Option<Narrowing>, NoMemory>
    ensures { IfOk result (λ narrowing. narrowing
        ≡ phone_left_out (option_map led_by leading.now) (as_candidate owner.now decl.now finding)) }
{
    let Some(leads) = leading else {
        return Ok(None);
    };
    let candidate = as_candidate(owner, decl, finding)?;
    let kept = is_left(leads, &candidate);
    drop(candidate);
    Ok(unless_kept(kept, narrowing_of(leads, finding.browses)))
}

/// An activity among those that are left. At a tie those that the caller may not start don't count.
fn contest(
    installed: &Installed,
    question: &Question,
    leaders: &PhoneLeaders,
    owner: &Package,
    decl: &Decl,
    priority: i32,
) -> Result<Standing, NoMemory>
    requires { IsPhoneLed installed.now question.now.caller question.now.intent.now leaders.now }
    ensures { IfOk result (λ said. said ≡ phone_contest installed.now (question_of question.now) owner.now decl.now
        priority (phone_left installed.now question.now.intent.now true)) }
{
    let standing = started(installed, question.caller, owner, decl)?;
    if leaders.contested && !is_reached(&standing) {
        return Ok(standing);
    }
    if is_below(priority, leaders.greatest) {
        drop(standing);
        return Ok(Standing::Outranked);
    }
    if leaders.tied {
        drop(standing);
        return Ok(Standing::Tied);
    }
    Ok(standing)
}

/// The component is reached.
fn is_reached(standing: &Standing) -> bool
    ensures { result ≡ is_reached standing.now }
{
    match standing {
        Standing::Reached => true,
        _ => false,
    }
}

/// An activity that the intent finds so on a phone.
pub(crate) fn found_activity(
    installed: &Installed,
    question: &Question,
    leaders: &PhoneLeaders,
    owner: &Package,
    decl: &Decl,
    finding: Finding,
) -> Result<Standing, NoMemory>
    requires { IsPhoneLed installed.now question.now.caller question.now.intent.now leaders.now }
    ensures { IfOk result
        (λ said. said ≡ phone_found_activity installed.now (question_of question.now) owner.now decl.now finding) }
{
    if let Some(narrowing) = left_out(&leaders.leading, owner, decl, finding)? {
        return Ok(Standing::Narrowed(narrowing));
    }
    contest(installed, question, leaders, owner, decl, finding.priority)
}
