//! Broadcasts, registered receivers and deliveries, as callers ask for them.
ghost use Rattle.std.specs.Prelude.{◌≡◌, ◌≤◌, ◌<◌, ◌==◌, length, All, None, IfOk, IsOk, OnErr};
ghost use Rattle.std.specs.List.{find};
ghost use Rattle.std.specs.Option.{option_copied, option_map};
ghost use Rattle.am_types.specs.Bounds.{greatest_number, latest_moment};
ghost use Rattle.am_types.specs.declared.resolve.Registration.{Registration};
ghost use Rattle.am_model.specs.Broadcasts.{expired};
ghost use Rattle.am_model.specs.Sending as model;
ghost use Rattle.am_history.specs.BroadcastCalls.{after_send, count_of, finish, finish_rule, register, send, unregister};
ghost use Rattle.am_history.specs.State.{State};
ghost use Rattle.am_history.specs.Steps.{at_moment};

use crate::sending::{send_at, send_rule, sending_of};
use am_gates::is_withheld;
use am_live_callers::Caller;
use am_queue::Queues;
use am_resolve::Board;
use am_types::{
    Answer, Filter, FinishFault, Intent, Limit, List, NoMemory, Ordered, Receiving, Registration,
    Reply, Rule, Sending, Steps, Text,
};
use std::alloc::Global;
use std::sync::ledger::Ledger;

/// How many registered receivers a uid may have.
const MOST_REGISTERED: usize = 64;

/// What a caller broadcasts: an intent, what a receiver of it must hold, and how it starts if it is ordered.
#[derive(Drop)]
pub struct Message<'a> {
    pub intent: &'a Intent,
    pub permission: Option<&'a Text>,
    pub ordered: Option<&'a Ordered>,
}

/// Broadcasts an intent at a moment, after handling the deadlines that are due then: to all receivers at once, or
/// to one after the other if it is ordered. The answer gives the broadcast's number and who it was offered to.
/// Refusals in this order: `ProtectedAction` if the action is protected and the caller is neither the system nor
/// the root; `OverLimit` of `Broadcasts` if the caller has 64 live ones, and of `Receivers` if more than 1,024 are
/// admitted. A step is a full test of a filter, or a reading of a deadline. After `NoMemory` all is as before.
pub fn send<L: Ledger>(
    alloc: Global,
    board: &Board,
    queues: &mut Queues,
    by: Caller,
    message: &Message<'_>,
    steps: &mut Steps<L>,
) -> Result<Reply, NoMemory>
    requires { queues.old.next_broadcast ≤ greatest_number }
    ensures done { IfOk result (λ reply. (s : State) →
        send (at_moment (record s { board = board.now; broadcasts = queues.old }) by.moment) by.uid
        message.now.intent.now (option_copied message.now.permission) (option_copied message.now.ordered)
        ≡ (reply, record s { board = board.now; broadcasts = queues.new; moment = by.moment })) }
    ensures same { OnErr result (queues.new ≡ queues.old) }
{
    if is_withheld(board.protected(), &message.intent.action, by.uid) {
        queues.expire(by.moment, steps);
        return Ok(Reply::Refused(Rule::ProtectedAction));
    }
    let offered = board.receivers(alloc, message.intent, by.uid, message.permission, steps)?;
    let sending = sending_of(alloc, by, message.intent, message.ordered, &offered)?;
    send_to(queues, sending, offered, steps)
}

/// Sends a broadcast to the receivers that it was offered to, at its moment.
fn send_to<L: Ledger>(
    queues: &mut Queues,
    sending: Sending,
    offered: List<Receiving>,
    steps: &mut Steps<L>,
) -> Result<Reply, NoMemory>
    requires moment { sending.now ≤ latest_moment }
    requires numbers { queues.old.next_broadcast ≤ greatest_number }
    ensures done { IfOk result (λ reply. (s : State) →
        after_send (at_moment (record s { broadcasts = queues.old }) sending.now) offered
        (model.send (expired queues.old sending.now) sending)
        ≡ (reply, record s { broadcasts = queues.new; moment = sending.now })) }
    ensures same { OnErr result (queues.new ≡ queues.old) }
{
    match send_at(queues, sending, steps) {
        Ok(broadcast) => Ok(Reply::Sent {
            broadcast,
            receivers: offered,
        }),
        Err(fault) => {
            drop(offered);
            match send_rule(fault) {
                None => Err(NoMemory),
                Some(rule) => Ok(Reply::Refused(rule)),
            }
        }
    }
}

/// Registers a receiver of the caller under the next number, and answers that number. `permission` is what a
/// sender must hold. Refused by `OverLimit` of `Registered` if the caller has 64. After `NoMemory` all is as before.
pub fn register(
    board: &mut Board,
    next: &mut u64,
    caller: u32,
    filter: &Filter,
    permission: Option<&Text>,
) -> Result<Reply, NoMemory>
    requires numbers { next.old ≤ greatest_number }
    requires registered { All (λ (r : Registration). r.number < next.old) board.old.registered }
    ensures done { IfOk result (λ reply. (s : State) →
        register (record s { board = board.old; next_registration = next.old }) caller filter.now
        (option_copied permission.entry)
        ≡ (reply, record s { board = board.new; next_registration = next.new })) }
    ensures count { length board.new.packages ≡ length board.old.packages }
    ensures same { OnErr result ((board.new ≡ board.old) × (next.new ≡ next.old)) }
{
    if count_of(board.registered(), caller) >= MOST_REGISTERED {
        return Ok(Reply::Refused(Rule::OverLimit(Limit::Registered)));
    }
    let number = *next;
    let copy = filter.clone()?;
    let held = permission_of(permission)?;
    board.register(number, caller, copy, held)?;
    *next = number + 1;
    Ok(Reply::Registered(number))
}

/// Takes a registered receiver of the caller back at a moment, after handling the deadlines that are due then. No
/// broadcast goes to it any longer. Refusals: `NoReceiver` if none with that number is registered; `NotYours` if it
/// is another uid's. A step is a reading of a deadline. Takes no memory.
pub fn unregister<L: Ledger>(
    board: &mut Board,
    queues: &mut Queues,
    by: Caller,
    number: u64,
    steps: &mut Steps<L>,
) -> Reply
    ensures done { (s : State) →
        unregister (at_moment (record s { board = board.old; broadcasts = queues.old }) by.moment) by.uid number
        ≡ (result, record s { board = board.new; broadcasts = queues.new; moment = by.moment }) }
    ensures count { length board.new.packages ≡ length board.old.packages }
{
    let holder = holder_of(board.registered(), number);
    queues.expire(by.moment, steps);
    match holder {
        None => Reply::Refused(Rule::NoReceiver),
        Some(uid) if uid != by.uid => Reply::Refused(Rule::NotYours),
        Some(_) => {
            board.unregister(number);
            queues.forget_registered(number, by.moment);
            Reply::Plain
        }
    }
}

/// Finishes a delivery to the caller, or takes the result of the caller's ordered broadcast, at a moment, after
/// handling the deadlines that are due then. Refusals: `NoDelivery` if there is none with that number; `NotYours` if
/// it is another uid's; `NotOrdered` if the answer sets an outcome or aborts, and it isn't an ordered delivery. A step
/// is a reading of a deadline. Takes memory only if the answer sets an outcome. After `NoMemory` all is as before.
pub fn finish<L: Ledger>(
    queues: &mut Queues,
    by: Caller,
    delivery: u64,
    answer: &Answer,
    steps: &mut Steps<L>,
) -> Result<Reply, NoMemory>
    ensures done { IfOk result (λ reply. (s : State) →
        finish (at_moment (record s { broadcasts = queues.old }) by.moment) by.uid delivery answer.now
        ≡ (reply, record s { broadcasts = queues.new; moment = by.moment })) }
    ensures same { OnErr result (queues.new ≡ queues.old) }
    ensures calm { answer.now.set ≡ None → IsOk result }
{
    let answer = answer_of(answer)?;
    queues.expire(by.moment, steps);
    match queues.finish(delivery, by.uid, answer, by.moment) {
        Ok(()) => Ok(Reply::Plain),
        Err(fault) => Ok(Reply::Refused(finish_rule(fault))),
    }
}

/// How many receivers a uid has registered.
fn count_of(registered: &List<Registration>, uid: u32) -> usize
    ensures { result ≡ count_of registered.now uid }
{
    registered
        .as_slice()
        .iter()
        .filter(|registration| registration.uid == uid)
        .count()
}

/// The uid of the registered receiver with that number, if there is one.
fn holder_of(registered: &List<Registration>, number: u64) -> Option<u32>
    ensures { result ≡ option_map (λ (r : Registration). r.uid)
        (find (λ (r : Registration). r.number == number) registered.now) }
{
    for registration in registered.as_slice() {
        if registration.number == number {
            return Some(registration.uid);
        }
    }
    None
}

/// A copy of the permission, if there is one.
fn permission_of(permission: Option<&Text>) -> Result<Option<Text>, NoMemory>
    ensures { IfOk result (λ copy. copy ≡ option_copied permission.entry) }
{
    match permission {
        None => Ok(None),
        Some(permission) => Ok(Some(permission.clone()?)),
    }
}

/// A copy of the answer. Takes no memory if there is no outcome.
fn answer_of(answer: &Answer) -> Result<Answer, NoMemory>
    ensures same { IfOk result (λ copy. copy ≡ answer.now) }
    ensures calm { answer.now.set ≡ None → IsOk result }
{
    match &answer.set {
        None => Ok(Answer {
            set: None,
            abort: answer.abort,
        }),
        Some(set) => Ok(Answer {
            set: Some(set.clone()?),
            abort: answer.abort,
        }),
    }
}

/// The rule by which a delivery isn't finished.
fn finish_rule(fault: FinishFault) -> Rule
    ensures { result ≡ finish_rule fault }
{
    match fault {
        FinishFault::NoDelivery => Rule::NoDelivery,
        FinishFault::NotYours => Rule::NotYours,
        FinishFault::NotOrdered => Rule::NotOrdered,
    }
}
