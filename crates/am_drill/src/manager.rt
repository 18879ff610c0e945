//! The manager of a drill.
ghost use Rattle.std.specs.Prelude.{◌≡◌, IfOk};
ghost use Rattle.am_model.specs.Sound.{IsSound};
ghost use Rattle.am_machine.specs.Beginnings.{BeginsWith};

use am_keeper::{MemoryKeeper, RowsBuilder};
use am_machine::{Manager, begin_fresh};
use am_types::{Device, List, NoMemory};
use std::alloc::Global;

/// A manager of a sound device of which nothing was kept.
pub(crate) fn manager_of(alloc: Global, device: Device) -> Result<Manager<MemoryKeeper>, NoMemory>
    requires { IsSound device }
    ensures { IfOk result (λ manager. BeginsWith device manager) }
{
    let rows = RowsBuilder::new(alloc).finish();
    let keeper = MemoryKeeper::new(alloc, rows, List::new(Vec::new(alloc)));
    begin_fresh(alloc, device, keeper)
}
