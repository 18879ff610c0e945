//! One generated call on a desk.
ghost use Rattle.std.specs.Prelude.{◌≡◌, ◌≤◌, ◌<◌, ◌*◌, IfOk, OnOk};
ghost use Rattle.am_types.specs.Bounds.{longest_body};
ghost use Rattle.am_history.specs.Desks.{IsSameDesk, start_of};
ghost use Rattle.am_wire_values.specs.Replies.{status_of};
ghost use Rattle.am_drill.specs.Bodies.{weight_of};
ghost use Rattle.am_drill.specs.Calls.{behind, call_at, call_of, caller_of};
ghost use Rattle.am_drill.specs.Desks.{IsAlone, IsPlain};
ghost use Rattle.am_drill.specs.Drills.{answer, history_after};

use crate::draws::Draws;
use crate::requests::request;
use crate::texts::numbered;
use am_desk::{Desk, DeskCall};
use am_types::{NoMemory, Request, Text};
use am_wire_values::{reply_status, request_value};
use std::alloc::Global;

/// How many cases of requests there are.
const CASES: u32 = 4;

/// The case of a tick.
const TICK: u32 = 3;

/// How far apart the moments of calls are, in milliseconds.
const STEP: u64 = 1000;

/// Makes call number j on a desk that nobody shares, and answers the status of its reply.
pub(crate) fn call<D: Desk>(
    alloc: Global,
    desk: &mut D,
    draws: &mut Draws,
    packages: u32,
    j: u32,
) -> Result<u16, NoMemory>
    requires some { 0 < packages }
    requires alone { IsAlone (D.view desk.old) }
    ensures status { IfOk result (λ status. status
        ≡ status_of (answer (start_of (D.view desk.old)) (D.view desk.old).seen (call_at packages j draws.old))) }
    ensures seen { OnOk result ((D.view desk.new).seen
        ≡ history_after (start_of (D.view desk.old)) (D.view desk.old).seen (call_at packages j draws.old)) }
    ensures same { OnOk result (IsSameDesk (D.view desk.old) (D.view desk.new)) }
    ensures drawn { OnOk result (draws.new ≡ behind draws.old) }
{
    let number = draws.below(packages);
    let case = draws.below(CASES);
    let key = caller(alloc, case, number)?;
    let request = request(alloc, draws, case)?;
    make(alloc, desk, &key, STEP * u64::from(j), request)
}

// The key of the caller of a case: the key of the package with this number, except the system's for a tick.
fn caller(alloc: Global, case: u32, number: u32) -> Result<Text, NoMemory>
    ensures { IfOk result (λ key. key ≡ caller_of case number) }
{
    if case == TICK {
        return Ok(Text::of(alloc, "sys")?);
    }
    numbered(alloc, "k", number)
}

// Makes the call of a request, and answers the status of its reply.
fn make<D: Desk>(
    alloc: Global,
    desk: &mut D,
    key: &Text,
    now: u64,
    request: Request,
) -> Result<u16, NoMemory>
    requires alone { IsAlone (D.view desk.old) }
    requires plain { IsPlain request }
    ensures status { IfOk result (λ status. status
        ≡ status_of (answer (start_of (D.view desk.old)) (D.view desk.old).seen (call_of key.now now request))) }
    ensures seen { OnOk result ((D.view desk.new).seen
        ≡ history_after (start_of (D.view desk.old)) (D.view desk.old).seen (call_of key.now now request)) }
    ensures same { OnOk result (IsSameDesk (D.view desk.old) (D.view desk.new)) }
{
    let Ok(weight) = weight(alloc, &request) else {
        drop(request);
        return Err(NoMemory);
    };
    let shown = desk.call(DeskCall {
        key,
        now,
        weight,
        request,
        least: 0,
    })?;
    let status = reply_status(&shown.reply);
    drop(shown);
    Ok(status)
}

// The length of the request's body, in bytes.
#[tactic(auto, using(am_wire_values::proofs::Floats::request_none))]
fn weight(alloc: Global, request: &Request) -> Result<u32, NoMemory>
    requires { weight_of request.now ≤ longest_body }
    ensures { IfOk result (λ weight. weight ≡ weight_of request.now) }
{
    let body = request_value(alloc, request)?.to_string(alloc)?;
    Ok(body.len() as u32)
}
