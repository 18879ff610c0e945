//! Starting and ending activities.
ghost use Rattle.std.specs.Prelude.{◌≡◌, length, IfOk, OnErr};
ghost use Rattle.am_model.specs.Gates.{verdict};
ghost use Rattle.am_model.specs.Placement.{place};
ghost use Rattle.am_model.specs.Receivers.{declared, or_rule, rule_of};
ghost use Rattle.am_tasks.specs.Numbers.{HasNumbers};
ghost use Rattle.am_history.specs.Activities.{after_place, back, caller_rule, components_of, end_rule, finish_activity, owned_rule, place_rule, source_rule, start, start_call, start_maybe, start_target};
ghost use Rattle.am_history.specs.Answers.{for_admin};
ghost use Rattle.am_history.specs.State.{State};

use am_gates::is_privileged;
use am_live_callers::gate;
use am_resolve::Board;
use am_tasks::Tasks;
use am_types::{
    Component, Decl, Hit, Intent, Kind, Limit, List, NoMemory, PlaceFault, Reply, Rule, StartCall,
    Steps, Target, TaskFault,
};
use std::alloc::Global;
use std::sync::ledger::Ledger;

/// A start as a caller asks for it, from an instance if one is given.
#[derive(Drop)]
pub struct Asked<'a> {
    pub caller: u32,
    pub intent: &'a Intent,
    pub source: Option<u64>,
}

/// Starts the activity that the intent names, or the one that it finds. If it finds several with the greatest
/// priority, starts none of them, and the reply names them. The package of an activity that was placed is no
/// longer stopped. A step is a full test of a filter. After `NoMemory` all is as before.
#[tactic(auto, unfolding(am_history::specs::Activities::start))]
pub fn start<L: Ledger>(
    alloc: Global,
    board: &mut Board,
    tasks: &mut Tasks,
    asked: &Asked<'_>,
    steps: &mut Steps<L>,
) -> Result<Reply, NoMemory>
    requires { HasNumbers tasks.old }
    ensures done { IfOk result (λ reply. (s : State) →
        start (record s { board = board.old; tasks = tasks.old }) asked.now.caller asked.now.intent.now asked.now.source
        ≡ (reply, record s { board = board.new; tasks = tasks.new })) }
    ensures count { length board.new.packages ≡ length board.old.packages }
    ensures same { OnErr result ((board.new ≡ board.old) × (tasks.new ≡ tasks.old)) }
{
    match &asked.intent.component {
        Some(component) => start_component(board, tasks, asked, component, Rule::NoComponent),
        None => {
            let target = board.target(alloc, asked.caller, asked.intent, steps)?;
            start_target(alloc, board, tasks, asked, target)
        }
    }
}

/// Starts the one target of an intent. If there are several and the caller may start one of them, names them.
fn start_target(
    alloc: Global,
    board: &mut Board,
    tasks: &mut Tasks,
    asked: &Asked<'_>,
    target: Target,
) -> Result<Reply, NoMemory>
    requires { HasNumbers tasks.old }
    ensures done { IfOk result (λ reply. (s : State) →
        start_target (record s { board = board.old; tasks = tasks.old }) asked.now.caller asked.now.intent.now
        asked.now.source target ≡ (reply, record s { board = board.new; tasks = tasks.new })) }
    ensures count { length board.new.packages ≡ length board.old.packages }
    ensures same { OnErr result ((board.new ≡ board.old) × (tasks.new ≡ tasks.old)) }
{
    match target {
        Target::Nothing => Ok(Reply::Refused(Rule::NoActivity)),
        Target::One(hit) => {
            start_component(board, tasks, asked, &hit.component, Rule::NoActivity)
        }
        Target::Choose(found) => match caller_rule(tasks, asked) {
            Some(rule) => {
                drop(found);
                Ok(Reply::Refused(rule))
            }
            None => {
                let names = components_of(alloc, found)?;
                Ok(Reply::Choose(names))
            }
        },
    }
}

/// Starts the activity, or refuses by the rule `missing` if it isn't declared.
fn start_component(
    board: &mut Board,
    tasks: &mut Tasks,
    asked: &Asked<'_>,
    component: &Component,
    missing: Rule,
) -> Result<Reply, NoMemory>
    requires { HasNumbers tasks.old }
    ensures done { IfOk result (λ reply. (s : State) →
        start_maybe (record s { board = board.old; tasks = tasks.old }) asked.now.caller asked.now.intent.now
        asked.now.source component.now missing (declared board.old.packages Kind.Activity component.now)
        ≡ (reply, record s { board = board.new; tasks = tasks.new })) }
    ensures count { length board.new.packages ≡ length board.old.packages }
    ensures same { OnErr result ((board.new ≡ board.old) × (tasks.new ≡ tasks.old)) }
{
    let Some((uid, decl)) = board.declared(component, Kind::Activity) else {
        return Ok(Reply::Refused(missing));
    };
    drop(missing);
    match refusal(board, tasks, asked, uid, decl)? {
        Some(rule) => Ok(Reply::Refused(rule)),
        None => {
            let call = start_call(asked, component, uid, decl)?;
            place(board, tasks, call)
        }
    }
}

/// The rule by which a start of a declared activity is refused before it is placed.
fn refusal(
    board: &Board,
    tasks: &Tasks,
    asked: &Asked<'_>,
    uid: u32,
    decl: &Decl,
) -> Result<Option<Rule>, NoMemory>
    ensures { IfOk result (λ rule. rule ≡ or_rule (source_rule tasks.now asked.now.source)
        (rule_of (verdict board.now.grants asked.now.caller uid decl.now.exported decl.now.permission))) }
{
    match source_rule(tasks, asked.source) {
        Some(rule) => Ok(Some(rule)),
        None => gate(board, asked.caller, uid, decl),
    }
}

/// The rule by which a start is refused if its source isn't there.
fn source_rule(tasks: &Tasks, source: Option<u64>) -> Option<Rule>
    ensures { result ≡ source_rule tasks.now source }
{
    match source {
        Some(number) if tasks.owner(number).is_none() => Some(Rule::NoInstance),
        _ => None,
    }
}

/// The rule by which a start is refused whatever its target.
fn caller_rule(tasks: &Tasks, asked: &Asked<'_>) -> Option<Rule>
    ensures { result ≡ caller_rule tasks.now asked.now.caller asked.now.intent.now asked.now.source }
{
    match asked.source {
        None if asked.intent.flags.new_task => None,
        None => Some(Rule::NeedsNewTask),
        Some(number) => owned_rule(asked.caller, tasks.owner(number)),
    }
}

/// The rule by which a start is refused if its source has that owner, or isn't there.
fn owned_rule(caller: u32, owner: Option<u32>) -> Option<Rule>
    ensures { result ≡ owned_rule caller owner }
{
    match owner {
        None => Some(Rule::NoInstance),
        Some(uid) if is_privileged(caller) || caller == uid => None,
        Some(_) => Some(Rule::NotYours),
    }
}

/// The start of a declared activity that is to be placed.
fn start_call(
    asked: &Asked<'_>,
    component: &Component,
    uid: u32,
    decl: &Decl,
) -> Result<StartCall, NoMemory>
    ensures { IfOk result (λ call. call
        ≡ start_call asked.now.caller asked.now.intent.now asked.now.source component.now (uid, decl.now)) }
{
    let target = component.clone()?;
    let affinity = decl.affinity.clone()?;
    let intent = asked.intent.clone()?;
    Ok(StartCall {
        target,
        owner: uid,
        caller: asked.caller,
        mode: decl.mode,
        affinity,
        flags: asked.intent.flags,
        source: asked.source,
        intent,
    })
}

/// Places the start. The package of an activity that was placed is no longer stopped.
fn place(board: &mut Board, tasks: &mut Tasks, call: StartCall) -> Result<Reply, NoMemory>
    requires { HasNumbers tasks.old }
    ensures done { IfOk result (λ reply. (s : State) →
        after_place (record s { board = board.old; tasks = tasks.old }) call.owner (place tasks.old call)
        ≡ (reply, record s { board = board.new; tasks = tasks.new })) }
    ensures count { length board.new.packages ≡ length board.old.packages }
    ensures same { OnErr result ((board.new ≡ board.old) × (tasks.new ≡ tasks.old)) }
{
    let uid = call.owner;
    match tasks.place(call) {
        Ok(landed) => {
            board.set_stopped(uid, false);
            Ok(Reply::Placed(landed))
        }
        Err(PlaceFault::NoMemory) => Err(NoMemory),
        Err(fault) => Ok(Reply::Refused(place_rule(fault))),
    }
}

/// The rule by which a start isn't placed.
fn place_rule(fault: PlaceFault) -> Rule
    ensures { result ≡ place_rule fault }
{
    match fault {
        PlaceFault::NoSource => Rule::NoInstance,
        PlaceFault::NotYours => Rule::NotYours,
        PlaceFault::NeedsNewTask => Rule::NeedsNewTask,
        PlaceFault::TasksFull => Rule::OverLimit(Limit::Tasks),
        PlaceFault::TaskFull | PlaceFault::NoMemory => Rule::OverLimit(Limit::Activities),
    }
}

/// Ends an activity instance, which only its own uid, the system and the root may do. Takes no memory.
#[tactic(auto, unfolding(am_history::specs::Activities::finish_activity))]
pub fn finish_activity(tasks: &mut Tasks, caller: u32, instance: u64) -> Reply
    ensures { (s : State) → finish_activity (record s { tasks = tasks.old }) caller instance
        ≡ (result, record s { tasks = tasks.new }) }
{
    match tasks.finish(instance, caller) {
        Ok(()) => Reply::Plain,
        Err(fault) => Reply::Refused(end_rule(fault)),
    }
}

/// The rule by which an instance isn't ended.
fn end_rule(fault: TaskFault) -> Rule
    ensures { result ≡ end_rule fault }
{
    match fault {
        TaskFault::NoSource => Rule::NoInstance,
        TaskFault::NotYours => Rule::NotYours,
    }
}

/// Goes back, which only the system and the root may do: ends the instance that the user sees, if there is one.
/// Takes no memory.
#[tactic(auto, unfolding(am_history::specs::Activities::back))]
pub fn back(tasks: &mut Tasks, caller: u32) -> Reply
    ensures { (s : State) →
        for_admin (record s { tasks = tasks.old }) caller (back (record s { tasks = tasks.old }))
        ≡ (result, record s { tasks = tasks.new }) }
{
    if is_privileged(caller) {
        Reply::Finished(tasks.back())
    } else {
        Reply::Refused(Rule::AdminOnly)
    }
}

/// The names of the components that were found.
pub fn components_of(alloc: Global, found: List<Hit>) -> Result<List<Component>, NoMemory>
    ensures { IfOk result (λ names. names ≡ components_of found) }
{
    let found = found.into_items().into_iter();
    let names = found.map(|hit| hit.component).collect(alloc)?;
    Ok(List::new(names))
}
