//! Reading the live state and the history, also as time passes.
ghost use Rattle.std.specs.Prelude.{◌≡◌, ℕ, false, if◌then◌else◌, IfOk, OnErr, IsOk, IsTrue};
ghost use Rattle.am_types.specs.declared.reply.Reply.TheVariants.{Entries, Refused};
ghost use Rattle.am_types.specs.declared.request.Request.TheVariants as asks;
ghost use Rattle.am_types.specs.declared.rule.Rule.TheVariants.{AdminOnly};
ghost use Rattle.am_model.specs.Broadcasts.{Broadcasts};
ghost use Rattle.am_model.specs.Gates.{is_privileged};
ghost use Rattle.am_history.specs.Steps.{act, at_moment, is_calm, is_changing, is_steady, page};

use crate::archive::Archive;
use am_explain::Question;
use am_live::{Caller, Live};
use am_types::{Entry, NoMemory, Reply, Request, Rule, Steps};
use std::sync::ledger::Ledger;

/// How many entries a page of the history has at most.
const PAGE: usize = 64;

/// Whether the request may change the state.
pub(crate) fn is_changing(request: &Request) -> bool
    ensures { result ≡ is_changing request.now }
{
    match request {
        Request::Query { .. }
        | Request::Explain { .. }
        | Request::ListTasks
        | Request::Services
        | Request::Inbox
        | Request::History { .. }
        | Request::Status => false,
        Request::Start { .. }
        | Request::FinishActivity { .. }
        | Request::Back
        | Request::StartService { .. }
        | Request::StopService { .. }
        | Request::Send { .. }
        | Request::Register { .. }
        | Request::Unregister { .. }
        | Request::Finish { .. }
        | Request::PendingGet { .. }
        | Request::PendingSend { .. }
        | Request::PendingCancel { .. }
        | Request::PendingGive { .. }
        | Request::Install { .. }
        | Request::Uninstall { .. }
        | Request::Grant { .. }
        | Request::Link { .. }
        | Request::ForceStop { .. }
        | Request::Tick
        | Request::Advance { .. } => true,
    }
}

/// The answer to a request that changes nothing.
#[tactic(auto, unfolding(am_history::specs::Steps::act))]
pub(crate) fn read<L: Ledger>(
    live: &Live,
    history: &Archive,
    call: &Entry,
    steps: &mut Steps<L>,
) -> Result<Reply, NoMemory>
    requires reads { is_changing call.now.request ≡ false }
    ensures { IfOk result (λ reply. act live.now history.now.entries call.entry.now.uid call.entry.now.request
        ≡ (reply, live.now)) }
{
    match &call.request {
        Request::Inbox => live.inbox(call.uid),
        Request::Status => Ok(status(live, history, call.uid)),
        _ => steady(live, history, call.uid, &call.request, steps),
    }
}

/// The answer to a request that changes nothing, except that time passes: what is due at the moment is handled.
/// After `NoMemory` the state is as before.
#[tactic(auto, unfolding(am_history::specs::Steps::act))]
pub(crate) fn read_at<L: Ledger>(
    live: &mut Live,
    history: &Archive,
    by: Caller,
    request: &Request,
    steps: &mut Steps<L>,
) -> Result<Reply, NoMemory>
    requires { is_changing request.now ≡ false }
    ensures done { IfOk result (λ reply.
        act (at_moment live.old by.moment) history.now.entries by.uid request.now ≡ (reply, live.new)) }
    ensures same { OnErr result (live.new ≡ live.old) }
    ensures calm { IsTrue (is_calm request.now) → IsOk result }
{
    match request {
        Request::Inbox => live.inbox_at(by, steps),
        Request::Status => {
            live.settle(by.moment, steps);
            Ok(status(live, history, by.uid))
        }
        _ => {
            let reply = steady(live, history, by.uid, request, steps)?;
            live.settle(by.moment, steps);
            Ok(reply)
        }
    }
}

/// The length of the history, the moment and the number of packages, for the system and the root.
#[tactic(auto, unfolding(am_history::specs::Steps::act))]
fn status(live: &Live, history: &Archive, caller: u32) -> Reply
    ensures { act live.now history.now.entries caller asks.Status ≡ (result, live.now) }
{
    if Live::is_privileged(caller) {
        Reply::Status {
            history: history.len() as u64,
            moment: live.moment(),
            packages: live.package_count(),
        }
    } else {
        Reply::Refused(Rule::AdminOnly)
    }
}

/// The answer to a request that changes nothing, and whose answer depends neither on broadcasts nor on
/// the moment.
#[tactic(auto, unfolding(am_history::specs::Steps::act))]
fn steady<L: Ledger>(
    live: &Live,
    history: &Archive,
    caller: u32,
    request: &Request,
    steps: &mut Steps<L>,
) -> Result<Reply, NoMemory>
    requires { IsTrue (is_steady request.now) }
    ensures { IfOk result (λ reply. (broadcasts : Broadcasts) (moment : ℕ) →
        act (record live.now { broadcasts = broadcasts; moment = moment }) history.now.entries caller request.now
        ≡ (reply, record live.now { broadcasts = broadcasts; moment = moment })) }
{
    match request {
        Request::Query {
            kind,
            intent,
            default_only,
        } => live.query(*kind, intent, *default_only, steps),
        Request::Explain {
            kind,
            intent,
            caller: name,
            permission,
            shown,
        } => {
            let question = Question::new(caller, *kind, intent, permission.as_ref());
            live.explain(&question, name.as_ref(), shown.as_ref(), steps)
        }
        Request::ListTasks => live.tasks(caller),
        Request::Services => live.services(caller),
        Request::History { from } => entries(history, caller, *from),
        Request::Inbox
        | Request::Status
        | Request::Start { .. }
        | Request::FinishActivity { .. }
        | Request::Back
        | Request::StartService { .. }
        | Request::StopService { .. }
        | Request::Send { .. }
        | Request::Register { .. }
        | Request::Unregister { .. }
        | Request::Finish { .. }
        | Request::PendingGet { .. }
        | Request::PendingSend { .. }
        | Request::PendingCancel { .. }
        | Request::PendingGive { .. }
        | Request::Install { .. }
        | Request::Uninstall { .. }
        | Request::Grant { .. }
        | Request::Link { .. }
        | Request::ForceStop { .. }
        | Request::Tick
        | Request::Advance { .. } => unreachable!(),
    }
}

/// A page of the history, for the system and the root.
fn entries(history: &Archive, caller: u32, from: u64) -> Result<Reply, NoMemory>
    ensures { IfOk result (λ reply. reply
        ≡ (if is_privileged caller then Entries from (page history.now.entries from) else Refused AdminOnly)) }
{
    if !Live::is_privileged(caller) {
        return Ok(Reply::Refused(Rule::AdminOnly));
    }
    let entries = history.page(from as usize, PAGE)?;
    Ok(Reply::Entries { from, entries })
}
