//! The components of a query that a caller sees.
ghost use Rattle.std.specs.Prelude.{◌≡◌, ◌+◌, ◌≤◌, IfOk, IsSome};
ghost use Rattle.std.specs.List.{filter};
ghost use Rattle.am_types.specs.declared.resolve.Hit.{Hit};
ghost use Rattle.am_index.specs.Groups.{group_size};
ghost use Rattle.am_model.specs.Visibility.{sees, visible};

use crate::seeing::sees;
use am_resolve::Board;
use am_types::{Hit, Intent, Kind, List, NoMemory, Queries, Steps};
use std::alloc::Global;
use std::sync::ledger::Ledger;

/// What [`Board::query`] shows of what the intent finds, without what is of a package that the caller doesn't see. No
/// gate is asked: a caller that sees a component may still not reach it. Each full test of a filter against the intent is a step, as in a query: at most as many as the
/// intent's group has filters, and none if the intent names a component. ("Package visibility filtering".)
///
/// # Errors
///
/// `NoMemory` if memory runs out.
pub fn visible<L: Ledger>(
    alloc: Global,
    board: &Board,
    queries: &List<Queries>,
    caller: u32,
    kind: Kind,
    intent: &Intent,
    default_only: bool,
    steps: &mut Steps<L>,
) -> Result<List<Hit>, NoMemory>
    ensures seen { IfOk result (λ hits. hits ≡ visible board.now queries.now caller kind intent.now default_only) }
    ensures tests { steps.new ≤ steps.old + group_size board.now.packages kind intent.now }
    ensures explicit { IsSome intent.now.component → steps.new ≡ steps.old }
{
    let found = board.query(alloc, kind, intent, default_only, steps)?;
    Ok(keep_seen(board, queries, caller, found))
}

/// The hits whose packages the caller sees.
fn keep_seen(board: &Board, queries: &List<Queries>, caller: u32, found: List<Hit>) -> List<Hit>
    ensures { result ≡ filter (λ (hit : Hit). sees board.now queries.now caller hit.uid) found }
{
    let mut hits = found.into_items();
    hits.retain(|hit| sees(board, queries, caller, hit.uid));
    List::new(hits)
}
