//! Starting and stopping services.
ghost use Rattle.std.specs.Prelude.{◌≡◌, ◌≤◌, length, All, IfOk, OnErr};
ghost use Rattle.am_types.specs.Bounds.{greatest_number};
ghost use Rattle.am_model.specs.Receivers.{declared};
ghost use Rattle.am_history.specs.Services.{start_maybe, start_service, stop_service};
ghost use Rattle.am_history.specs.State.{Service, State};

use am_live_callers::gate;
use am_resolve::Board;
use am_services::Services;
use am_types::{Component, Intent, Kind, Limit, NoMemory, Reply, Rule, Steps};
use std::alloc::Global;
use std::sync::ledger::Ledger;

/// Starts the service that the intent names, or the first one that it finds in the package that it names. An
/// intent that names neither is refused. The package of a started service is no longer stopped. A step is a full
/// test of a filter. After `NoMemory` all is as before.
#[tactic(auto, unfolding(am_history::specs::Services::start_service))]
pub fn start_service<L: Ledger>(
    alloc: Global,
    board: &mut Board,
    services: &mut Services,
    caller: u32,
    intent: &Intent,
    steps: &mut Steps<L>,
) -> Result<Reply, NoMemory>
    requires { All (λ (service : Service). service.starts ≤ greatest_number) services.old }
    ensures done { IfOk result (λ reply. (s : State) →
        start_service (record s { board = board.old; services = services.old }) caller intent.now
        ≡ (reply, record s { board = board.new; services = services.new })) }
    ensures count { length board.new.packages ≡ length board.old.packages }
    ensures same { OnErr result ((board.new ≡ board.old) × (services.new ≡ services.old)) }
{
    match (&intent.component, &intent.package) {
        (Some(component), _) => start_component(
            board,
            services,
            caller,
            intent,
            component,
            Rule::NoComponent,
        ),
        (None, Some(_)) => {
            let found = board.hits(alloc, Kind::Service, intent, false, steps)?;
            match found.as_slice().first() {
                None => Ok(Reply::Refused(Rule::NoService)),
                Some(hit) => start_component(
                    board,
                    services,
                    caller,
                    intent,
                    &hit.component,
                    Rule::NoService,
                ),
            }
        }
        (None, None) => Ok(Reply::Refused(Rule::ImplicitService)),
    }
}

/// Starts the service, whose package is then no longer stopped, or refuses by the rule `missing` if it isn't declared.
fn start_component(
    board: &mut Board,
    services: &mut Services,
    caller: u32,
    intent: &Intent,
    component: &Component,
    missing: Rule,
) -> Result<Reply, NoMemory>
    requires { All (λ (service : Service). service.starts ≤ greatest_number) services.old }
    ensures done { IfOk result (λ reply. (s : State) →
        start_maybe (record s { board = board.old; services = services.old }) caller intent.now component.now missing
        (declared board.old.packages Kind.Service component.now)
        ≡ (reply, record s { board = board.new; services = services.new })) }
    ensures count { length board.new.packages ≡ length board.old.packages }
    ensures same { OnErr result ((board.new ≡ board.old) × (services.new ≡ services.old)) }
{
    let Some((uid, decl)) = board.declared(component, Kind::Service) else {
        return Ok(Reply::Refused(missing));
    };
    drop(missing);
    if let Some(rule) = gate(board, caller, uid, decl)? {
        return Ok(Reply::Refused(rule));
    }
    if services.is_full_for(component) {
        return Ok(Reply::Refused(Rule::OverLimit(Limit::Services)));
    }
    let name = component.clone()?;
    let starts = services.start(component, uid, intent)?;
    board.set_stopped(uid, false);
    Ok(Reply::Started {
        component: name,
        starts,
    })
}

/// Stops a service that runs. After `NoMemory` all is as before.
#[tactic(auto, unfolding(am_history::specs::Services::stop_service))]
pub fn stop_service(
    board: &Board,
    services: &mut Services,
    caller: u32,
    component: &Component,
) -> Result<Reply, NoMemory>
    ensures done { IfOk result (λ reply. (s : State) →
        stop_service (record s { board = board.now; services = services.old }) caller component.now
        ≡ (reply, record s { board = board.now; services = services.new })) }
    ensures same { OnErr result (services.new ≡ services.old) }
{
    let Some((uid, decl)) = board.declared(component, Kind::Service) else {
        return Ok(Reply::Refused(Rule::NoComponent));
    };
    if !services.runs(component) {
        return Ok(Reply::Refused(Rule::NoService));
    }
    match gate(board, caller, uid, decl)? {
        Some(rule) => Ok(Reply::Refused(rule)),
        None => {
            services.stop(component);
            Ok(Reply::Plain)
        }
    }
}
