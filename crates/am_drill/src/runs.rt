//! Generated calls on a desk, one after the other.
ghost use Rattle.std.specs.Prelude.{◌≡◌, ◌<◌, IfOk, OnOk};
ghost use Rattle.am_history.specs.Desks.{start_of};
ghost use Rattle.am_drill.specs.Calls.{calls_of};
ghost use Rattle.am_drill.specs.Desks.{IsAlone};
ghost use Rattle.am_drill.specs.Drills.{history_of, statuses_of};

use crate::calls::call;
use crate::draws::Draws;
use am_desk::Desk;
use am_types::NoMemory;
use std::alloc::Global;

/// Makes so many calls on a desk that nobody shares, and answers the statuses of their replies.
pub(crate) fn run<D: Desk>(
    alloc: Global,
    desk: &mut D,
    draws: &mut Draws,
    packages: u32,
    requests: u32,
) -> Result<Vec<u16>, NoMemory>
    requires some { 0 < packages }
    requires alone { IsAlone (D.view desk.old) }
    ensures statuses { IfOk result (λ statuses. statuses.items
        ≡ statuses_of (start_of (D.view desk.old)) (D.view desk.old).seen (calls_of packages requests draws.old)) }
    ensures seen { OnOk result ((D.view desk.new).seen
        ≡ history_of (start_of (D.view desk.old)) (D.view desk.old).seen (calls_of packages requests draws.old)) }
{
    let mut statuses = Vec::new(alloc);
    for j in 0..requests {
        let status = call(alloc, desk, draws, packages, j)?;
        statuses.push(status)?;
    }
    Ok(statuses)
}
