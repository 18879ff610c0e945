//! The order of receivers.
ghost use Rattle.std.specs.Prelude.{◌≡◌, IfOk, map};
ghost use Rattle.am_resolve.specs.Ranking.{in_rank, receiving_of};

use crate::offers::Ranked;
use am_types::{List, NoMemory, Receiving};
use std::alloc::Global;
use std::cmp::Reverse;

/// By falling priority; items of equal priority keep their order.
pub(crate) fn in_order(alloc: Global, mut ranked: Vec<Ranked>) -> Result<List<Receiving>, NoMemory>
    ensures { IfOk result (λ receivings. receivings ≡ map receiving_of (in_rank ranked.items)) }
{
    ranked.sort_by_key(|ranked| Reverse(ranked.priority))?;
    receivings_of(alloc, ranked)
}

/// What becomes of the offers, without their priorities.
fn receivings_of(alloc: Global, ranked: Vec<Ranked>) -> Result<List<Receiving>, NoMemory>
    ensures { IfOk result (λ receivings. receivings ≡ map receiving_of ranked.items) }
{
    let receivings = ranked
        .into_iter()
        .map(|ranked| ranked.receiving)
        .collect::<Vec<Receiving>>(alloc)?;
    Ok(List::new(receivings))
}
