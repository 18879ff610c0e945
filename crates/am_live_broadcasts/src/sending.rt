//! A broadcast that is to be sent: who it goes to, and what it needs from the caller's intent.
ghost use Rattle.std.specs.Prelude.{◌≡◌, ◌≢◌, ◌≤◌, Ok, Err, None, IfOk, IfErr, IfNone, IfSome};
ghost use Rattle.std.specs.Option.{option_copied};
ghost use Rattle.am_types.specs.Bounds.{greatest_number, latest_moment};
ghost use Rattle.am_model.specs.Broadcasts.{expired};
ghost use Rattle.am_model.specs.Receivers.{admitted};
ghost use Rattle.am_model.specs.Sending.{send};
ghost use Rattle.am_history.specs.State.{State};
ghost use Rattle.am_history.specs.BroadcastCalls.{send_rule, sending_of};

use am_live_callers::Caller;
use am_queue::Queues;
use am_types::{
    Intent, Limit, List, NoMemory, Ordered, Receiving, Rule, SendFault, Sending, Spot, Steps,
};
use std::alloc::Global;
use std::mem;
use std::sync::ledger::Ledger;

/// The receivers that are admitted, in their order.
fn admitted(alloc: Global, offered: &[Receiving]) -> Result<List<Spot>, NoMemory>
    ensures { IfOk result (λ spots. spots ≡ admitted offered.now) }
{
    let mut spots = Vec::new(alloc);
    for receiving in offered {
        if receiving.skip.is_none() {
            spots.push(Spot {
                uid: receiving.uid,
                aim: receiving.aim.clone()?,
            })?;
        }
    }
    Ok(List::new(spots))
}

/// A copy of how an ordered broadcast starts, if it is one.
fn ordered_of(ordered: Option<&Ordered>) -> Result<Option<Ordered>, NoMemory>
    ensures { IfOk result (λ copy. copy ≡ option_copied ordered.entry) }
{
    match ordered {
        None => Ok(None),
        Some(ordered) => Ok(Some(ordered.clone()?)),
    }
}

/// The broadcast of a caller to those of the receivers who are admitted, at a moment.
pub(crate) fn sending_of(
    alloc: Global,
    by: Caller,
    intent: &Intent,
    ordered: Option<&Ordered>,
    offered: &List<Receiving>,
) -> Result<Sending, NoMemory>
    ensures moment { IfOk result (λ sending. sending.now ≡ by.moment) }
    ensures sending { IfOk result (λ sending. (state : State) → state.moment ≡ by.moment
        → sending ≡ sending_of state by.uid intent.now (option_copied ordered.entry) offered.now) }
{
    let to = admitted(alloc, offered.as_slice())?;
    let ordered = ordered_of(ordered)?;
    let flags = intent.flags;
    let intent = intent.clone()?;
    Ok(Sending {
        sender: by.uid,
        now: by.moment,
        foreground: flags.foreground,
        no_abort: flags.no_abort,
        intent,
        to,
        ordered,
    })
}

/// The rule by which a broadcast isn't sent; none if memory ran out.
pub(crate) fn send_rule(fault: SendFault) -> Option<Rule>
    ensures none { IfNone result (fault ≡ SendFault.NoMemory) }
    ensures refused { IfSome result (λ rule. fault ≢ SendFault.NoMemory) }
    ensures rule { IfSome result (λ rule. rule ≡ send_rule fault) }
{
    match fault {
        SendFault::Full => Some(Rule::OverLimit(Limit::Broadcasts)),
        SendFault::TooMany => Some(Rule::OverLimit(Limit::Receivers)),
        SendFault::NoMemory => None,
    }
}

/// Sends a broadcast after handling the deadlines that are due at its moment, and returns its number.
/// After a refusal these deadlines are still handled; after `NoMemory` all is as before.
pub(crate) fn send_at<L: Ledger>(
    queues: &mut Queues,
    call: Sending,
    steps: &mut Steps<L>,
) -> Result<u64, SendFault>
    requires broadcasts { queues.old.next_broadcast ≤ greatest_number }
    requires moment { call.now ≤ latest_moment }
    ensures sent { IfOk result (λ number. send (expired queues.old call.now) call ≡ Ok (number, queues.new)) }
    ensures refused { IfErr result (λ fault. fault ≢ SendFault.NoMemory
        → send (expired queues.old call.now) call ≡ Err fault) }
    ensures left { IfErr result (λ fault. fault ≢ SendFault.NoMemory → queues.new ≡ expired queues.old call.now) }
    ensures same { result ≡ Err SendFault.NoMemory → queues.new ≡ queues.old }
{
    if !queues.due(call.now, steps) {
        return queues.send(call);
    }
    // This works on a copy, since handled deadlines can't be undone.
    let Ok(mut copy) = queues.copy() else {
        drop(call);
        return Err(SendFault::NoMemory);
    };
    copy.expire(call.now, steps);
    match copy.send(call) {
        Err(SendFault::NoMemory) => {
            drop(copy);
            Err(SendFault::NoMemory)
        }
        sent => {
            drop(mem::replace(queues, copy));
            sent
        }
    }
}
