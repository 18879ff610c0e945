//! The standing of a component or a registered receiver.
ghost use Rattle.std.specs.Prelude.{◌≡◌, ◌+◌, ◌≤◌, ◌∷◌, [], IsSome, IfOk, length, Some, None};
ghost use Rattle.am_index.specs.Lookups.{search_of as index_search_of};
ghost use Rattle.am_model.specs.Accounts.{enabled, found, named, needs_default, registered_standing, search_of as model_search_of, standing};
ghost use Rattle.am_explain.specs.Asking.{question_of};
ghost use Rattle.am_explain.specs.Contests.{AreGrounds};
ghost use Rattle.am_types.specs.declared.account.Standing.TheVariants.{Filters};
ghost use Rattle.am_explain.specs.Tests.{takes_any_host_in, tested_of};

use crate::asking::Question;
use crate::contest::{Contest, Grounds};
use crate::naming::{is_other_component, is_other_package};
use crate::phone;
use crate::reaching::{found_activity, found_service, offered, offered_to, started};
use crate::tested::{Tested, ask_filters, test_registered};
use am_index::Search;
use am_installed::Installed;
use am_resolve::{is_for, registered_offer};
use am_types::{Decl, Finding, Kind, List, NoMemory, Package, Registration, Standing, Steps, Why};
use std::alloc::Global;
use std::sync::ledger::Ledger;

/// An implicit start of an activity needs the default category.
fn needs_default(kind: Kind) -> bool
    ensures { result ≡ needs_default kind }
{
    match kind {
        Kind::Activity => true,
        Kind::Service | Kind::Receiver => false,
    }
}

/// What is looked for to answer the question.
fn search_of<'a>(installed: &Installed, question: &Question<'a>) -> Search<'a>
    ensures { index_search_of result ≡ model_search_of installed.now (question_of question.now) }
{
    Search {
        rules: installed.rules(),
        kind: question.kind,
        intent: question.intent,
        need_default: needs_default(question.kind),
    }
}

/// A component that has filters that the intent finds.
fn passed(
    grounds: &Grounds,
    owner: &Package,
    decl: &Decl,
    finding: Finding,
    any_host: bool,
) -> Result<Standing, NoMemory>
    requires grounds { AreGrounds grounds.now }
    requires any_host { any_host ≡ takes_any_host_in grounds.now.installed.now.rules
        (model_search_of grounds.now.installed.now (question_of grounds.now.question)) decl.now.filters }
    ensures { IfOk result (λ said. said
        ≡ found grounds.now.installed.now (question_of grounds.now.question) owner.now decl.now (Some finding)) }
{
    let installed = grounds.installed;
    let question = &grounds.question;
    match grounds.contest {
        Contest::Start(leaders) => found_activity(
            installed,
            question,
            leaders,
            owner,
            decl,
            finding.priority,
            any_host,
        ),
        Contest::PhoneStart(leaders) => {
            phone::found_activity(installed, question, leaders, owner, decl, finding)
        }
        Contest::Service(first) => found_service(installed, question, first, owner, decl),
        Contest::Broadcast => offered_to(installed, question, owner, decl),
    }
}

/// An enabled component that the intent may find by its filters, with the outcome of testing them.
fn found(
    grounds: &Grounds,
    owner: &Package,
    decl: &Decl,
    tested: Tested,
) -> Result<Standing, NoMemory>
    requires grounds { AreGrounds grounds.now }
    requires tested { tested
        ≡ tested_of (model_search_of grounds.now.installed.now (question_of grounds.now.question)) decl.now.filters }
    ensures { IfOk result (λ said. said
        ≡ enabled grounds.now.installed.now (question_of grounds.now.question) owner.now decl.now None) }
{
    match tested {
        Tested::Failed(reasons) => Ok(Standing::Filters(reasons)),
        Tested::Passed(finding, any_host) => passed(grounds, owner, decl, finding, any_host),
    }
}

/// A component that the intent names.
fn named(
    installed: &Installed,
    question: &Question,
    owner: &Package,
    decl: &Decl,
) -> Result<Standing, NoMemory>
    ensures { IfOk result (λ said. said ≡ named installed.now (question_of question.now) owner.now decl.now) }
{
    match question.kind {
        Kind::Activity | Kind::Service => started(installed, question.caller, owner, decl),
        Kind::Receiver => offered_to(installed, question, owner, decl),
    }
}

/// The standing of a component of the kind. Each filter that is tested is a step.
pub(crate) fn standing_of<L: Ledger>(
    grounds: &Grounds,
    owner: &Package,
    decl: &Decl,
    steps: &mut Steps<L>,
) -> Result<Standing, NoMemory>
    requires { AreGrounds grounds.now }
    ensures standing { IfOk result (λ said. said
        ≡ standing grounds.now.installed.now (question_of grounds.now.question) owner.now decl.now) }
    ensures tests { steps.new ≤ steps.old + length decl.now.filters }
    ensures explicit { IsSome grounds.now.question.intent.now.component → steps.new ≡ steps.old }
{
    let question = &grounds.question;
    if is_other_component(&question.intent.component, owner, decl) {
        return Ok(Standing::OtherComponent);
    }
    if is_other_package(question.intent, owner) {
        return Ok(Standing::OtherPackage);
    }
    if !decl.enabled {
        return Ok(Standing::Disabled);
    }
    match &question.intent.component {
        Some(_) => named(grounds.installed, question, owner, decl),
        None => {
            let search = search_of(grounds.installed, question);
            let tested = ask_filters(grounds.alloc, &search, &decl.filters, steps)?;
            found(grounds, owner, decl, tested)
        }
    }
}

/// The standing of a registered receiver. Its filter, if it is tested, is a step.
pub(crate) fn registered_standing<L: Ledger>(
    grounds: &Grounds,
    registration: &Registration,
    steps: &mut Steps<L>,
) -> Result<Standing, NoMemory>
    ensures standing { IfOk result
        (λ said. said ≡ registered_standing grounds.now.installed.now (question_of grounds.now.question)
        registration.now) }
    ensures tests { steps.new ≤ steps.old + 1 }
    ensures explicit { IsSome grounds.now.question.intent.now.component → steps.new ≡ steps.old }
{
    let (installed, question) = (grounds.installed, &grounds.question);
    if question.intent.component.is_some() {
        return Ok(Standing::OtherComponent);
    }
    if !is_for(installed, question.intent, registration.uid) {
        return Ok(Standing::OtherPackage);
    }
    match test_registered(
        installed.rules(),
        &registration.filter,
        question.intent,
        steps,
    ) {
        Some(reason) => failed(grounds.alloc, reason),
        None => offered(installed, question, &registered_offer(registration)),
    }
}

/// The only filter isn't passed.
fn failed(alloc: Global, reason: Why) -> Result<Standing, NoMemory>
    ensures { IfOk result (λ said. said ≡ Filters (reason ∷ [])) }
{
    let mut reasons = Vec::new(alloc);
    reasons.push(reason)?;
    Ok(Standing::Filters(List::new(reasons)))
}
