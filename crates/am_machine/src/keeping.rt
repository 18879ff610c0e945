//! Calls for which a row is kept: what they change is prepared, then the keeper is asked.
ghost use Rattle.std.specs.Prelude.{◌≡◌, ◌≢◌, ◌≤◌, ◌||◌, List as Items, true, false, if◌then◌else◌, IfOk, OnErr, IsTrue, Err};
ghost use Rattle.am_types.specs.Bounds.{latest_moment};
ghost use Rattle.am_types.specs.declared.history.Entry.{Entry};
ghost use Rattle.am_types.specs.declared.reply.Reply.TheVariants.{Refused};
ghost use Rattle.am_types.specs.declared.rule.Rule.TheVariants.{KeeperFault};
ghost use Rattle.am_outside.specs.Counts.{HasRisen};
ghost use Rattle.am_keeper.specs.declared.failure.KeepFail.TheVariants.{Failed, NoMemory as RanOut};
ghost use Rattle.am_keeper.specs.Keeping.{Puts, raised_by};
ghost use Rattle.am_keeper.specs.Rows.{with_row};
ghost use Rattle.std.specs.Option.{option_map};
ghost use Rattle.am_history.specs.Steps.{asks_keeper, after_due, at_moment, keeps_row, step};
ghost use Rattle.am_laws_state.specs.Sound.{IsSoundState};
ghost use Rattle.am_live_packages.specs.Changes.{Fits, changed};
ghost use Rattle.am_machine.specs.Keeping.{AsksAtMostOnce, CountsFault, GoesOn, Leaves, LeavesUnmade, TellsSame, with_kept};

use am_keeper::{KeepFail, Keeper, Row, put_row};
use am_live::{Change, Live, Plan};
use am_types::{Entry, NoMemory, Reply, Request, Rule, Steps};
use std::sync::ledger::Ledger;

/// The answer to a call that is stored.
#[derive(Drop)]
pub(crate) struct Answered {
    pub(crate) reply: Reply,
    /// False if its row couldn't be kept: then it changed nothing.
    pub(crate) kept: bool,
}

/// Whether a row is to be kept for the request.
pub(crate) fn keeps_row(request: &Request) -> bool
    ensures { result ≡ keeps_row request.now }
{
    match request {
        Request::Install { .. } => true,
        Request::Uninstall { .. } => true,
        Request::Grant { .. } => true,
        Request::Link { .. } => true,
        _ => false,
    }
}

/// The answer to a call with a row, and what it does to the state and the keeper. After `NoMemory` the state
/// and the rows are as before.
pub(crate) fn keep<K: Keeper, L: Ledger>(
    live: &mut Live,
    keeper: &mut K,
    call: &Entry,
    steps: &mut Steps<L>,
) -> Result<Answered, NoMemory>
    requires keeps { IsTrue (keeps_row call.now.request) }
    requires sound { IsSoundState live.old }
    ensures done { IfOk result (λ answered. (before : Items Entry) →
        step live.old before (with_kept call.entry.now answered.kept) ≡ (answered.reply, live.new)) }
    ensures asked { IfOk result (λ answered. (before : Items Entry) → IsTrue (answered.kept
        || asks_keeper (after_due live.old call.entry.now.now) before call.entry.now.uid call.entry.now.request)) }
    ensures same { OnErr result (live.new ≡ live.old) }
    ensures keeper { GoesOn K.Keeper keeper.old keeper.new }
    ensures leaves { IfOk result (λ answered. Leaves K.Keeper
        (record { state = live.old; request = call.entry.now.request; reply = answered.reply })
        keeper.old keeper.new) }
    ensures fault { IfOk result (λ answered. CountsFault K.Keeper answered.kept keeper.old keeper.new) }
    ensures unmade { OnErr result (LeavesUnmade K.Keeper keeper.old keeper.new) }
{
    let moment = live.moment_after(call.now);
    let planned = live.plan(call.uid, &call.request)?;
    match planned {
        Plan::Refused(rule) => {
            live.settle(moment, steps);
            Ok(Answered {
                reply: Reply::Refused(rule),
                kept: true,
            })
        }
        Plan::Accepted { change, row } => make(live, keeper, change, row, moment, steps),
    }
}

// A change that fits the state is made, if the keeper keeps its row.
fn make<K: Keeper, L: Ledger>(
    live: &mut Live,
    keeper: &mut K,
    change: Change,
    row: Row,
    moment: u64,
    steps: &mut Steps<L>,
) -> Result<Answered, NoMemory>
    requires fits { Fits change live.old }
    requires moment { moment ≤ latest_moment }
    ensures done { IfOk result (λ answered. (if answered.kept
        then changed change (at_moment live.old moment)
        else (Refused KeeperFault, at_moment live.old moment)) ≡ (answered.reply, live.new)) }
    ensures same { OnErr result (live.new ≡ live.old) }
    ensures keeper { GoesOn K.Keeper keeper.old keeper.new }
    ensures put { IfOk result (λ answered. K.is_honest keeper.new → K.rows keeper.new
        ≡ (if answered.kept then option_map (λ told. with_row told row) (K.rows keeper.old) else K.rows keeper.old)) }
    ensures refused { OnErr result (TellsSame K.Keeper keeper.old keeper.new) }
    ensures fault { IfOk result (λ answered. CountsFault K.Keeper answered.kept keeper.old keeper.new) }
    ensures counts { IfOk result (λ answered. answered.kept ≡ true → K.faults keeper.new ≡ K.faults keeper.old) }
    ensures uncounted { OnErr result (K.faults keeper.new ≡ K.faults keeper.old) }
    ensures asks { IfOk result (λ answered. K.puts keeper.new ≡ raised_by 1 (K.puts keeper.old)) }
    ensures at_most { OnErr result (AsksAtMostOnce K.Keeper keeper.old keeper.new) }
{
    if let Err(error) = live.prepare(&change) {
        drop(change);
        drop(row);
        return Err(error);
    }
    let asked = put(keeper, &row);
    drop(row);
    if let Err(fail) = asked {
        live.take_back(&change);
        drop(change);
        return unkept(live, fail, moment, steps);
    }
    Ok(Answered {
        reply: live.carry_out(change, moment, steps),
        kept: true,
    })
}

// A row wasn't kept: the call is answered by that if the keeper failed, and isn't made if memory ran out.
fn unkept<L: Ledger>(
    live: &mut Live,
    fail: KeepFail,
    moment: u64,
    steps: &mut Steps<L>,
) -> Result<Answered, NoMemory>
    requires { moment ≤ latest_moment }
    ensures failed { IfOk result (λ answered. (answered ≡ record { reply = Refused KeeperFault; kept = false })
        × (live.new ≡ at_moment live.old moment) × (fail ≡ Failed)) }
    ensures same { OnErr result (live.new ≡ live.old) }
    ensures ran_out { OnErr result (fail ≡ RanOut) }
{
    match fail {
        KeepFail::Failed => {
            live.settle(moment, steps);
            Ok(Answered {
                reply: Reply::Refused(Rule::KeeperFault),
                kept: false,
            })
        }
        KeepFail::NoMemory => Err(NoMemory),
    }
}

// Asks the keeper once to put the row.
fn put<K: Keeper>(keeper: &mut K, row: &Row) -> Result<(), KeepFail>
    ensures rows { K.is_honest keeper.new →
        Puts (λ told. with_row told row.now) (K.rows keeper.old) (K.rows keeper.new) result }
    ensures keeper { GoesOn K.Keeper keeper.old keeper.new }
    ensures puts { K.puts keeper.new ≡ raised_by 1 (K.puts keeper.old) }
    ensures failed { result ≡ Err Failed → HasRisen (K.faults keeper.old) (K.faults keeper.new) }
    ensures only_failed { result ≢ Err Failed → K.faults keeper.new ≡ K.faults keeper.old }
{
    put_row(keeper, row)
}
