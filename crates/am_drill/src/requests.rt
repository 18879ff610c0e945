//! The generated requests.
ghost use Rattle.std.specs.Prelude.{◌≡◌, ◌≤◌, ◌<◌, ◌==◌, ◌++◌, decimal, None, Some, false, IfOk, OnOk};
ghost use Rattle.am_types.specs.declared.manifest.Kind.TheVariants.{Activity};
ghost use Rattle.am_types.specs.declared.request.Request.TheVariants as asks;
ghost use Rattle.am_types.specs.Intents.{no_flags};
ghost use Rattle.am_drill.specs.Draws.{after, draw};
ghost use Rattle.am_drill.specs.Devices.{activity_action, broadcast_action};
ghost use Rattle.am_drill.specs.Requests.{acting, draws_of, in_order, new_task, request_of};

use crate::draws::Draws;
use crate::texts::numbered;
use am_types::{Flags, Intent, Kind, List, NoMemory, Ordered, Outcome, Request, Text};
use std::alloc::Global;

/// The request of a case, whose action is drawn: a query, a start, an ordered broadcast, or a tick.
#[tactic(auto, unfolding(crate::specs::Requests::request_of))]
pub(crate) fn request(alloc: Global, draws: &mut Draws, case: u32) -> Result<Request, NoMemory>
    requires case { case < 4 }
    ensures made { IfOk result (λ request. request ≡ request_of case draws.old) }
    ensures drawn { OnOk result (draws.new ≡ after (draws_of case) draws.old) }
{
    match case {
        0 => query(alloc, draws.below(8)),
        1 => start(alloc, draws.below(8)),
        2 => send(alloc, draws.below(4)),
        _ => Ok(Request::Tick),
    }
}

// A query for the activities of an action.
fn query(alloc: Global, number: u32) -> Result<Request, NoMemory>
    ensures { IfOk result (λ request. request
        ≡ asks.Query Activity (acting (activity_action number) no_flags) false) }
{
    let action = numbered(alloc, "a.", number)?;
    Ok(Request::Query {
        kind: Kind::Activity,
        intent: acting(alloc, action, Flags::default()),
        default_only: false,
    })
}

// A start of an activity of an action, in a new task.
fn start(alloc: Global, number: u32) -> Result<Request, NoMemory>
    ensures { IfOk result (λ request. request ≡ asks.Start (acting (activity_action number) new_task) None) }
{
    let action = numbered(alloc, "a.", number)?;
    let flags = Flags {
        new_task: true,
        ..Flags::default()
    };
    Ok(Request::Start {
        intent: acting(alloc, action, flags),
        source: None,
    })
}

// An ordered broadcast of an action.
fn send(alloc: Global, number: u32) -> Result<Request, NoMemory>
    ensures { IfOk result (λ request. request
        ≡ asks.Send (acting (broadcast_action number) no_flags) None (Some in_order)) }
{
    let action = numbered(alloc, "b.", number)?;
    Ok(Request::Send {
        intent: acting(alloc, action, Flags::default()),
        permission: None,
        ordered: Some(in_order(alloc)),
    })
}

// An intent with only an action and flags.
fn acting(alloc: Global, action: Text, flags: Flags) -> Intent
    ensures { result ≡ acting action flags }
{
    let mut intent = Intent::empty(alloc);
    intent.action = Some(action);
    intent.flags = flags;
    intent
}

// The order of a broadcast that names no outcome, and whose result nobody asks for.
fn in_order(alloc: Global) -> Ordered
    ensures { result ≡ in_order }
{
    Ordered {
        initial: Outcome {
            code: 0,
            text: None,
            extras: List::new(Vec::new(alloc)),
        },
        wanted: false,
    }
}
