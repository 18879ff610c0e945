//! A drill from its beginning to its end.
ghost use Rattle.std.specs.Prelude.{◌≡◌, ◌≤◌, ◌<◌, IfOk, length};
ghost use Rattle.am_drill.specs.Drills.{drilled};

use crate::devices::{MOST_PACKAGES, device};
use crate::draws::Draws;
use crate::manager::manager_of;
use crate::runs::run;
use crate::tally::Tally;
use am_keeper::MemoryKeeper;
use am_machine::SoleDesk;
use am_types::{List, NoMemory};
use std::alloc::Global;

/// Makes so many generated requests, one after the other, on a manager of a generated device of so many packages, from
/// 1 to 256, and tells the replies. The number that it begins from decides all draws.
///
/// # Errors
///
/// `NoMemory` if memory runs out.
pub fn drill(alloc: Global, from: u64, packages: u32, requests: u32) -> Result<Tally, NoMemory>
    requires some { 0 < packages }
    requires few { packages ≤ MOST_PACKAGES }
    ensures exact { IfOk result (λ tally. tally ≡ drilled from packages requests) }
{
    let mut draws = Draws::new(from);
    let device = device(alloc, &mut draws, packages)?;
    let manager = manager_of(alloc, device)?;
    let mut desk = SoleDesk::new(manager);
    match run(alloc, &mut desk, &mut draws, packages, requests) {
        Ok(statuses) => Ok(tally(desk, statuses)),
        Err(NoMemory) => {
            drop(desk);
            Err(NoMemory)
        }
    }
}

// The tally of a desk's history and the statuses of its replies.
fn tally(desk: SoleDesk<MemoryKeeper>, statuses: Vec<u16>) -> Tally
    ensures { result ≡ record { statuses = statuses.items; history = length desk.managed.history } }
{
    let manager = desk.into_manager();
    let history = manager.length();
    drop(manager);
    Tally {
        statuses: List::new(statuses),
        history,
    }
}
