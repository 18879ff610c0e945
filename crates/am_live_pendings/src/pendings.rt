//! Pending intents, as callers ask for them.
ghost use Rattle.std.specs.Prelude.{◌≡◌, ◌≤◌, IfOk, OnOk, OnErr};
ghost use Rattle.am_types.specs.Bounds.{greatest_number};
ghost use Rattle.am_types.specs.declared.reply.Reply.{Reply};
ghost use Rattle.am_types.specs.declared.reply.Reply.TheVariants.{Refused};
ghost use Rattle.am_history.specs.PendingCalls.{in_new_task, pending_cancel, pending_get, pending_give, pending_rule, used_up};
ghost use Rattle.am_history.specs.State.{State};

use am_pending::Pending;
use am_resolve::Board;
use am_types::{
    Intent, Kind, Limit, NoMemory, PendingFault, PendingFlags, Reply, Rule, Steps, Text,
};
use std::sync::ledger::Ledger;

/// The intent with NEW_TASK added. Takes no memory.
pub fn in_new_task(mut intent: Intent) -> Intent
    ensures { result ≡ in_new_task intent }
{
    intent.flags.new_task = true;
    intent
}

/// The rule by which a call on a pending intent is refused.
fn rule_of(fault: PendingFault) -> Rule
    ensures { result ≡ pending_rule fault }
{
    match fault {
        PendingFault::Mutability => Rule::Mutability,
        PendingFault::Full => Rule::OverLimit(Limit::Pending),
        PendingFault::NoToken => Rule::NoToken,
        PendingFault::NotCreator => Rule::NotCreator,
        PendingFault::NotHolder => Rule::NotHolder,
        PendingFault::Canceled => Rule::Canceled,
        PendingFault::ExtrasFull => Rule::OverLimit(Limit::Extras),
        PendingFault::HoldersFull | PendingFault::NoMemory => Rule::OverLimit(Limit::Holders),
    }
}

/// The answer to a call that is refused, or `NoMemory` if memory ran out.
pub fn refused(fault: PendingFault) -> Result<Reply, NoMemory>
    ensures rule { IfOk result (λ reply. reply ≡ Refused (pending_rule fault)) }
    ensures known { OnOk result (fault ≡ PendingFault.NoMemory → ⊥) }
    ensures memory { OnErr result (fault ≡ PendingFault.NoMemory) }
{
    if fault == PendingFault::NoMemory {
        Err(NoMemory)
    } else {
        Ok(Reply::Refused(rule_of(fault)))
    }
}

/// Gives the caller the token of its pending intent, which is made if there is none and `no_create` isn't given.
/// Refused by `Mutability` unless exactly one of `mutable` and `immutable` is given, and by `OverLimit(Pending)`
/// if the caller has 1,024. After `NoMemory` all is as before.
pub fn get<L: Ledger>(
    pending: &mut Pending,
    caller: u32,
    kind: Kind,
    code: i64,
    intent: Intent,
    flags: PendingFlags,
    steps: &mut Steps<L>,
) -> Result<Reply, NoMemory>
    requires { pending.old.next ≤ greatest_number }
    ensures done { IfOk result (λ reply. (state : State) →
        pending_get (record state { pendings = pending.old }) caller kind code intent flags
        ≡ (reply, record state { pendings = pending.new })) }
    ensures same { OnErr result (pending.new ≡ pending.old) }
{
    match pending.get(caller, kind, code, intent, flags, steps) {
        Ok(token) => Ok(Reply::Token(token)),
        Err(fault) => refused(fault),
    }
}

/// Cancels a token for its creator. Refused by `NoToken` if the token isn't live, and by `NotCreator`. Takes no
/// memory.
pub fn cancel<L: Ledger>(
    pending: &mut Pending,
    caller: u32,
    token: u64,
    steps: &mut Steps<L>,
) -> Reply
    ensures { (state : State) → pending_cancel (record state { pendings = pending.old }) caller token
        ≡ (result, record state { pendings = pending.new }) }
{
    match pending.cancel(token, caller, steps) {
        Ok(()) => Reply::Plain,
        Err(fault) => Reply::Refused(rule_of(fault)),
    }
}

/// Gives a token of the caller's to the installed package with that name. Refused by `NoPackage`, then by `NoToken`
/// if the token isn't live, by `NotCreator`, and by `OverLimit(Holders)` if it has 64 holders. After `NoMemory`
/// all is as before.
pub fn give<L: Ledger>(
    board: &Board,
    pending: &mut Pending,
    caller: u32,
    token: u64,
    name: &Text,
    steps: &mut Steps<L>,
) -> Result<Reply, NoMemory>
    ensures done { IfOk result (λ reply. (state : State) →
        pending_give (record state { board = board.now; pendings = pending.old }) caller token name.now
        ≡ (reply, record state { board = board.now; pendings = pending.new })) }
    ensures same { OnErr result (pending.new ≡ pending.old) }
{
    let Some(to) = board.package_named(name) else {
        return Ok(Reply::Refused(Rule::NoPackage));
    };
    match pending.give(token, caller, to.uid, steps) {
        Ok(()) => Ok(Reply::Plain),
        Err(fault) => refused(fault),
    }
}

/// Uses a token up, whatever the answer was: its creator cancels it. Takes no memory.
pub fn use_up<L: Ledger>(pending: &mut Pending, token: u64, creator: u32, steps: &mut Steps<L>)
    ensures { (state : State) (reply : Reply) → used_up token creator (reply, record state { pendings = pending.old })
        ≡ (reply, record state { pendings = pending.new }) }
{
    let _ = pending.cancel(token, creator, steps);
}
