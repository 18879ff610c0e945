//! Requests.
ghost use Rattle.std.specs.Prelude.{◌≡◌, IfOk, IsOk, IsTrue};
ghost use Rattle.am_history.specs.Steps.{is_calm, sets_nothing};
ghost use Rattle.am_machine.specs.Requests.{request_of};

use am_packed::{bytes_of, pairs, value_of};
use am_types::{Answer, NoMemory, Outcome, Request};
use std::alloc::Global;

/// A request with the parts that take memory packed into bytes.
#[derive(Drop)]
pub(crate) enum Packed {
    Query(Vec<u8>),
    Explain(Vec<u8>),
    Start(Vec<u8>),
    FinishActivity(u64),
    Back,
    ListTasks,
    StartService(Vec<u8>),
    StopService(Vec<u8>),
    Services,
    Send(Vec<u8>),
    Register(Vec<u8>),
    Unregister(u64),
    Inbox,
    /// An answer that sets no outcome.
    Finish { delivery: u64, abort: bool },
    /// An answer that sets one.
    FinishWith(Vec<u8>),
    PendingGet(Vec<u8>),
    PendingSend(Vec<u8>),
    PendingCancel(u64),
    PendingGive(Vec<u8>),
    Install(Vec<u8>),
    Uninstall(Vec<u8>),
    Grant(Vec<u8>),
    Link(Vec<u8>),
    ForceStop(Vec<u8>),
    Tick,
    Advance(u64),
    History(u64),
    Status,
}

// The variant with these parts, one after the other.
macro_rules! packed {
    ($alloc:ident, $out:ident, $kind:ident: $($part:ident)+) => {
        Ok(Packed::$kind(bytes_of($alloc, $out, &pairs!($($part)+))?))
    };
}

/// The packed form of a request. The buffer's contents are lost. A calm request takes no memory.
pub(crate) fn pack(alloc: Global, out: &mut Vec<u8>, request: &Request) -> Result<Packed, NoMemory>
    ensures same { IfOk result (λ packed. request_of packed ≡ request.now) }
    ensures calm { IsTrue (is_calm request.now) → IsOk result }
{
    match request {
        Request::Query {
            kind,
            intent,
            default_only,
        } => packed!(alloc, out, Query: kind intent default_only),
        Request::Explain {
            kind,
            intent,
            caller,
            permission,
            shown,
        } => packed!(alloc, out, Explain: kind intent caller permission shown),
        Request::Start { intent, source } => packed!(alloc, out, Start: intent source),
        Request::FinishActivity { instance } => Ok(Packed::FinishActivity(*instance)),
        Request::Back => Ok(Packed::Back),
        Request::ListTasks => Ok(Packed::ListTasks),
        Request::StartService { intent } => packed!(alloc, out, StartService: intent),
        Request::StopService { component } => packed!(alloc, out, StopService: component),
        Request::Services => Ok(Packed::Services),
        Request::Send {
            intent,
            permission,
            ordered,
        } => packed!(alloc, out, Send: intent permission ordered),
        Request::Register { filter, permission } =>
            packed!(alloc, out, Register: filter permission),
        Request::Unregister { number } => Ok(Packed::Unregister(*number)),
        Request::Inbox => Ok(Packed::Inbox),
        Request::Finish { delivery, answer } => pack_finish(alloc, out, *delivery, answer),
        Request::PendingGet {
            kind,
            code,
            intent,
            flags,
        } => packed!(alloc, out, PendingGet: kind code intent flags),
        Request::PendingSend { token, fill } => packed!(alloc, out, PendingSend: token fill),
        Request::PendingCancel { token } => Ok(Packed::PendingCancel(*token)),
        Request::PendingGive { token, package } => packed!(alloc, out, PendingGive: token package),
        Request::Install { text, key } => packed!(alloc, out, Install: text key),
        Request::Uninstall { package } => packed!(alloc, out, Uninstall: package),
        Request::Grant {
            package,
            permission,
            held,
        } => packed!(alloc, out, Grant: package permission held),
        Request::Link {
            package,
            host,
            approved,
        } => packed!(alloc, out, Link: package host approved),
        Request::ForceStop { package } => packed!(alloc, out, ForceStop: package),
        Request::Tick => Ok(Packed::Tick),
        Request::Advance { by } => Ok(Packed::Advance(*by)),
        Request::History { from } => Ok(Packed::History(*from)),
        Request::Status => Ok(Packed::Status),
    }
}

// The packed form of an answer to a delivery.
fn pack_finish(
    alloc: Global,
    out: &mut Vec<u8>,
    delivery: u64,
    answer: &Answer,
) -> Result<Packed, NoMemory>
    ensures same { IfOk result (λ packed. request_of packed ≡ Request.Finish delivery answer.now) }
    ensures calm { IsTrue (sets_nothing answer.now) → IsOk result }
{
    let abort = answer.abort;
    match &answer.set {
        None => Ok(Packed::Finish { delivery, abort }),
        Some(outcome) => Ok(Packed::FinishWith(bytes_of(
            alloc,
            out,
            &(&delivery, (outcome, &abort)),
        )?)),
    }
}

// The request of a variant whose parts were packed one after the other.
macro_rules! unpacked {
    ($alloc:ident, $bytes:ident, $kind:ident: $($field:ident)+) => {{
        let pairs!($($field)+) = value_of($alloc, $bytes)?;
        Ok(Request::$kind { $($field),+ })
    }};
}

/// The request of a packed one.
pub(crate) fn unpack(alloc: Global, packed: &Packed) -> Result<Request, NoMemory>
    ensures { IfOk result (λ request. request ≡ request_of packed.now) }
{
    match packed {
        Packed::Query(bytes) => unpacked!(alloc, bytes, Query: kind intent default_only),
        Packed::Explain(bytes) =>
            unpacked!(alloc, bytes, Explain: kind intent caller permission shown),
        Packed::Start(bytes) => unpacked!(alloc, bytes, Start: intent source),
        Packed::FinishActivity(instance) => Ok(Request::FinishActivity {
            instance: *instance,
        }),
        Packed::Back => Ok(Request::Back),
        Packed::ListTasks => Ok(Request::ListTasks),
        Packed::StartService(bytes) => unpacked!(alloc, bytes, StartService: intent),
        Packed::StopService(bytes) => unpacked!(alloc, bytes, StopService: component),
        Packed::Services => Ok(Request::Services),
        Packed::Send(bytes) => unpacked!(alloc, bytes, Send: intent permission ordered),
        Packed::Register(bytes) => unpacked!(alloc, bytes, Register: filter permission),
        Packed::Unregister(number) => Ok(Request::Unregister { number: *number }),
        Packed::Inbox => Ok(Request::Inbox),
        Packed::Finish { delivery, abort } => Ok(finish(*delivery, None, *abort)),
        Packed::FinishWith(bytes) => {
            let (delivery, (outcome, abort)) = value_of(alloc, bytes)?;
            Ok(finish(delivery, Some(outcome), abort))
        }
        Packed::PendingGet(bytes) => unpacked!(alloc, bytes, PendingGet: kind code intent flags),
        Packed::PendingSend(bytes) => unpacked!(alloc, bytes, PendingSend: token fill),
        Packed::PendingCancel(token) => Ok(Request::PendingCancel { token: *token }),
        Packed::PendingGive(bytes) => unpacked!(alloc, bytes, PendingGive: token package),
        Packed::Install(bytes) => unpacked!(alloc, bytes, Install: text key),
        Packed::Uninstall(bytes) => unpacked!(alloc, bytes, Uninstall: package),
        Packed::Grant(bytes) => unpacked!(alloc, bytes, Grant: package permission held),
        Packed::Link(bytes) => unpacked!(alloc, bytes, Link: package host approved),
        Packed::ForceStop(bytes) => unpacked!(alloc, bytes, ForceStop: package),
        Packed::Tick => Ok(Request::Tick),
        Packed::Advance(by) => Ok(Request::Advance { by: *by }),
        Packed::History(from) => Ok(Request::History { from: *from }),
        Packed::Status => Ok(Request::Status),
    }
}

// An answer to a delivery.
fn finish(delivery: u64, set: Option<Outcome>, abort: bool) -> Request
    ensures { result ≡ Request.Finish delivery (record { set = set; abort = abort }) }
{
    Request::Finish {
        delivery,
        answer: Answer { set, abort },
    }
}
