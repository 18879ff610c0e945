//! Requests as values.
ghost use Rattle.std.specs.Prelude.{◌≡◌, IfOk, OnOk};
ghost use Rattle.serde_json.specs.Data.{object, no_members};
ghost use Rattle.serde_json.specs.View.{view, members_view};
ghost use Rattle.am_wire_values.specs.Requests.{explain_data, finish_data, get_data, query_data, request_data, send_data, with_outcome};

use crate::as_value::{AsValue, object_with, put_all, put_shown, put_some};
use crate::fields::{Members, listed, put_word, some_truth, some_whole};
use crate::intents::put_some_extras;
use crate::names::{kind_name, pending_flag_values, pending_name};
use am_types::{Answer, Intent, Kind, NoMemory, Ordered, Outcome, PendingFlags, Request, Text};
use serde_json::{Value, put};
use std::alloc::{AllocError, Global};

/// A request as the value in its body: `{}` for one without a body. What is absent or at
/// its default is left out.
pub fn request_value(alloc: Global, request: &Request) -> Result<Value, NoMemory>
    ensures { IfOk result (λ value. view value ≡ request_data request.now) }
{
    Ok(value_of(alloc, request)?)
}

fn value_of(alloc: Global, request: &Request) -> Result<Value, AllocError>
    ensures { IfOk result (λ value. view value ≡ request_data request.now) }
{
    object_with!(alloc, |members| put_request(alloc, &mut members, request))
}

impl AsValue for Request {
    ghost as_data = { request_data };

    fn value(&self, alloc: Global) -> Result<Value, AllocError> {
        value_of(alloc, self)
    }
}

/// Puts the contents of a request's body.
#[tactic(auto, unfolding(crate::specs::Requests::request_data, crate::specs::Requests::start_data, crate::specs::Requests::register_data, crate::specs::Requests::pending_send_data, crate::specs::Requests::grant_data, crate::specs::Requests::link_data))]
fn put_request(alloc: Global, members: &mut Members, request: &Request) -> Result<(), AllocError>
    requires { members_view members.old.entries ≡ no_members }
    ensures { OnOk result (object (members_view members.new.entries) ≡ request_data request.now) }
{
    match request {
        Request::Query {
            kind,
            intent,
            default_only,
        } => put_query(alloc, members, *kind, intent, *default_only),
        Request::Explain {
            kind,
            intent,
            caller,
            permission,
            shown,
        } => put_explain(alloc, members, *kind, intent, caller, permission, shown),
        Request::Start { intent, source } => {
            put_shown(alloc, members, "intent", intent)?;
            put_some(alloc, members, "source", source)
        }
        Request::FinishActivity { instance } => put_shown(alloc, members, "instance", instance),
        Request::StartService { intent } => put_shown(alloc, members, "intent", intent),
        Request::StopService { component } => put_shown(alloc, members, "component", component),
        Request::Send {
            intent,
            permission,
            ordered,
        } => put_send(alloc, members, intent, permission, ordered),
        Request::Register { filter, permission } => {
            put_shown(alloc, members, "filter", filter)?;
            put_some(alloc, members, "permission", permission)
        }
        Request::Unregister { number } => put_shown(alloc, members, "number", number),
        Request::Finish { delivery, answer } => put_finish(alloc, members, *delivery, answer),
        Request::PendingGet {
            kind,
            code,
            intent,
            flags,
        } => put_get(alloc, members, *kind, *code, intent, *flags),
        Request::PendingSend { token, fill } => {
            put_shown(alloc, members, "token", token)?;
            put_some(alloc, members, "fill", fill)
        }
        Request::PendingCancel { token } => put_shown(alloc, members, "token", token),
        Request::PendingGive { token, package } => {
            put_all!(alloc, members, "package" => package, "token" => token)
        }
        Request::Install { text, key } =>
            put_all!(alloc, members, "key" => key, "manifest" => text),
        Request::Uninstall { package } => put_shown(alloc, members, "package", package),
        Request::Grant {
            package,
            permission,
            held,
        } =>
            put_all!(alloc, members, "package" => package, "permission" => permission, "held" => held),
        Request::Link {
            package,
            host,
            approved,
        } => put_all!(alloc, members, "package" => package, "host" => host, "approved" => approved),
        Request::ForceStop { package } => put_shown(alloc, members, "package", package),
        Request::Advance { by } => put_shown(alloc, members, "by", by),
        Request::History { from } => put_shown(alloc, members, "from", from),
        Request::Back
        | Request::ListTasks
        | Request::Services
        | Request::Inbox
        | Request::Tick
        | Request::Status => Ok(()),
    }
}

#[tactic(auto, unfolding(crate::specs::Requests::query_data))]
fn put_query(
    alloc: Global,
    members: &mut Members,
    kind: Kind,
    intent: &Intent,
    default_only: bool,
) -> Result<(), AllocError>
    requires { members_view members.old.entries ≡ no_members }
    ensures { OnOk result (object (members_view members.new.entries) ≡ query_data kind intent.now default_only) }
{
    put_word(alloc, members, "kind", kind_name(kind))?;
    put_shown(alloc, members, "intent", intent)?;
    put_some(alloc, members, "defaultOnly", &some_truth(default_only))
}

#[tactic(auto, unfolding(crate::specs::Requests::explain_data))]
fn put_explain(
    alloc: Global,
    members: &mut Members,
    kind: Kind,
    intent: &Intent,
    caller: &Option<Text>,
    permission: &Option<Text>,
    shown: &Option<Text>,
) -> Result<(), AllocError>
    requires { members_view members.old.entries ≡ no_members }
    ensures { OnOk result (object (members_view members.new.entries)
        ≡ explain_data kind intent.now caller.now permission.now shown.now) }
{
    put_word(alloc, members, "kind", kind_name(kind))?;
    put_shown(alloc, members, "intent", intent)?;
    put_some(alloc, members, "as", caller)?;
    put_some(alloc, members, "permission", permission)?;
    put_some(alloc, members, "of", shown)
}

#[tactic(auto, unfolding(crate::specs::Requests::send_data, crate::specs::Requests::with_ordered))]
fn put_send(
    alloc: Global,
    members: &mut Members,
    intent: &Intent,
    permission: &Option<Text>,
    ordered: &Option<Ordered>,
) -> Result<(), AllocError>
    requires { members_view members.old.entries ≡ no_members }
    ensures { OnOk result (object (members_view members.new.entries)
        ≡ send_data intent.now permission.now ordered.now) }
{
    put_shown(alloc, members, "intent", intent)?;
    put_some(alloc, members, "permission", permission)?;
    match ordered {
        None => Ok(()),
        Some(ordered) => {
            put_shown(alloc, members, "ordered", &true)?;
            put_outcome(alloc, members, &ordered.initial)?;
            put_some(alloc, members, "code", &some_whole(ordered.initial.code))?;
            put_some(alloc, members, "result", &some_truth(ordered.wanted))
        }
    }
}

/// Puts an outcome apart from its code.
#[tactic(auto, unfolding(crate::specs::Requests::with_outcome))]
fn put_outcome(alloc: Global, members: &mut Members, outcome: &Outcome) -> Result<(), AllocError>
    ensures { OnOk result (members_view members.new.entries ≡ with_outcome outcome.now
        (members_view members.old.entries)) }
{
    put_some(alloc, members, "data", &outcome.text)?;
    put_some_extras(alloc, members, &outcome.extras)
}

#[tactic(auto, unfolding(crate::specs::Requests::finish_data))]
fn put_finish(
    alloc: Global,
    members: &mut Members,
    delivery: u64,
    answer: &Answer,
) -> Result<(), AllocError>
    requires { members_view members.old.entries ≡ no_members }
    ensures { OnOk result (object (members_view members.new.entries) ≡ finish_data delivery answer.now) }
{
    put_shown(alloc, members, "delivery", &delivery)?;
    put_some(alloc, members, "abort", &some_truth(answer.abort))?;
    match &answer.set {
        None => Ok(()),
        Some(outcome) => {
            put_shown(alloc, members, "code", &outcome.code)?;
            put_outcome(alloc, members, outcome)
        }
    }
}

#[tactic(auto, unfolding(crate::specs::Requests::get_data))]
fn put_get(
    alloc: Global,
    members: &mut Members,
    kind: Kind,
    code: i64,
    intent: &Intent,
    flags: PendingFlags,
) -> Result<(), AllocError>
    requires { members_view members.old.entries ≡ no_members }
    ensures { OnOk result (object (members_view members.new.entries) ≡ get_data kind code intent.now flags) }
{
    put_word(alloc, members, "kind", pending_name(kind))?;
    put_shown(alloc, members, "code", &code)?;
    put_shown(alloc, members, "intent", intent)?;
    let flags = pending_flag_values(alloc, flags)?;
    put(members, alloc, "flags", listed(flags))
}
