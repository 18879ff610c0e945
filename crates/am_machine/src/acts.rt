//! What the requests do to the live state, and the replies to them.
ghost use Rattle.std.specs.Prelude.{◌≡◌, false, if◌then◌else◌, IfOk, OnErr, IsOk, IsTrue};
ghost use Rattle.am_types.specs.declared.reply.Reply.TheVariants.{Plain, Refused};
ghost use Rattle.am_types.specs.declared.rule.Rule.TheVariants.{AdminOnly};
ghost use Rattle.am_model.specs.Gates.{is_privileged};
ghost use Rattle.am_history.specs.Numbers.{HasNumbers};
ghost use Rattle.am_history.specs.Steps.{act, after_due, at_moment, is_calm, keeps_row};

use crate::archive::Archive;
use crate::reads::read_at;
use am_live::{Caller, Live};
use am_types::{Entry, NoMemory, Reply, Request, Rule, Steps};
use std::sync::ledger::Ledger;

/// The reply to a call at its moment, and what the call does to the state. After `NoMemory`
/// the state is as before.
pub(crate) fn act<L: Ledger>(
    live: &mut Live,
    history: &Archive,
    call: &Entry,
    steps: &mut Steps<L>,
) -> Result<Reply, NoMemory>
    requires rowless { keeps_row call.now.request ≡ false }
    requires numbers { HasNumbers live.old }
    ensures done { IfOk result (λ reply. act (after_due live.old call.entry.now.now) history.now.entries
        call.entry.now.uid call.entry.now.request ≡ (reply, live.new)) }
    ensures same { OnErr result (live.new ≡ live.old) }
    ensures calm { IsTrue (is_calm call.entry.now.request) → IsOk result }
{
    let by = Caller {
        uid: call.uid,
        moment: live.moment_after(call.now),
    };
    act_at(live, history, by, &call.request, steps)
}

/// The same at a given moment.
#[tactic(auto, unfolding(am_history::specs::Steps::act))]
fn act_at<L: Ledger>(
    live: &mut Live,
    history: &Archive,
    by: Caller,
    request: &Request,
    steps: &mut Steps<L>,
) -> Result<Reply, NoMemory>
    requires rowless { keeps_row request.now ≡ false }
    requires numbers { HasNumbers live.old }
    ensures done { IfOk result (λ reply.
        act (at_moment live.old by.moment) history.now.entries by.uid request.now ≡ (reply, live.new)) }
    ensures same { OnErr result (live.new ≡ live.old) }
    ensures calm { IsTrue (is_calm request.now) → IsOk result }
{
    match request {
        Request::Start { intent, source } => live.start(by, intent, *source, steps),
        Request::FinishActivity { instance } => Ok(live.finish_activity(by, *instance, steps)),
        Request::Back => Ok(live.back(by, steps)),
        Request::StartService { intent } => live.start_service(by, intent, steps),
        Request::StopService { component } => live.stop_service(by, component, steps),
        Request::Send {
            intent,
            permission,
            ordered,
        } => {
            let permission = permission.as_ref();
            let ordered = ordered.as_ref();
            live.send(by, intent, permission, ordered, steps)
        }
        Request::Register { filter, permission } => {
            live.register(by, filter, permission.as_ref(), steps)
        }
        Request::Unregister { number } => Ok(live.unregister(by, *number, steps)),
        Request::Finish { delivery, answer } => live.finish(by, *delivery, answer, steps),
        Request::PendingGet {
            kind,
            code,
            intent,
            flags,
        } => live.pending_get(by, *kind, *code, intent, *flags, steps),
        Request::PendingSend { token, fill } => live.pending_send(by, *token, fill.as_ref(), steps),
        Request::PendingCancel { token } => Ok(live.pending_cancel(by, *token, steps)),
        Request::PendingGive { token, package } => live.pending_give(by, *token, package, steps),
        Request::ForceStop { package } => Ok(live.force_stop(by, package, steps)),
        Request::Tick => {
            live.settle(by.moment, steps);
            Ok(tick(by.uid))
        }
        Request::Advance { by: more } => Ok(live.advance(by, *more, steps)),
        Request::Query { .. }
        | Request::Explain { .. }
        | Request::ListTasks
        | Request::Services
        | Request::Inbox
        | Request::History { .. }
        | Request::Status => read_at(live, history, by, request, steps),
        Request::Install { .. }
        | Request::Uninstall { .. }
        | Request::Grant { .. }
        | Request::Link { .. } => unreachable!(),
    }
}

/// The answer to a tick, which only lets time pass.
fn tick(caller: u32) -> Reply
    ensures { result ≡ (if is_privileged caller then Plain else Refused AdminOnly) }
{
    if Live::is_privileged(caller) {
        Reply::Plain
    } else {
        Reply::Refused(Rule::AdminOnly)
    }
}
