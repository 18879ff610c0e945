//! How a manager begins, with or without kept rows.
ghost use Rattle.std.specs.Prelude.{◌≡◌, [], IfOk, IfErr, Some, Ok};
ghost use Rattle.am_keeper.specs.declared.rows.Rows.{Rows as Told};
ghost use Rattle.am_keeper.specs.Rows.{IsInOrder, no_rows};
ghost use Rattle.am_model.specs.Sound.{IsSound};
ghost use Rattle.am_history.specs.Desks.{opening_of};
ghost use Rattle.am_history.specs.Opening.{opening_with};
ghost use Rattle.am_opening.specs.Openings.{Refuses};
ghost use Rattle.am_machine.specs.Beginnings.{Begins, BeginsWith, CanBegin, IsNoMemory};

use crate::archive::Archive;
use crate::manager::Manager;
use crate::opened::Opened;
use am_keeper::{Attached, Keeper, Rows, RowsBuilder};
use am_live::Live;
use am_opening::{BeginFault, open};
use am_types::{Device, NoMemory};
use std::alloc::Global;
use std::hash::RandomState;

/// A manager of a sound device over a keeper and the rows that were there when it came, with no history. It
/// keeps the allocator for its later calls. It is refused by `Rows`, with the name of the first row with which the
/// device can't be opened.
pub fn begin<K: Keeper>(
    alloc: Global,
    device: Device,
    attached: Attached<K>,
) -> Result<Manager<K>, BeginFault>
    requires sound { IsSound device }
    requires order { IsInOrder attached.rows }
    requires told { K.is_honest attached.keeper → (told : Told) → K.rows attached.keeper ≡ Some told
        → attached.rows ≡ told }
    ensures begun { IfOk result (λ manager. manager ≡ record {
      origin = record { device = device; rows = attached.rows; place = K.place attached.keeper };
      history = [];
      spare = 0;
      keeper = attached.keeper;
    }) }
    ensures opens { IfOk result (λ manager. opening_with device attached.rows ≡ Ok (opening_of manager.origin)) }
    ensures refused { IfErr result (λ fault. Refuses fault (opening_with device attached.rows)) }
{
    begin_keyed(alloc, device, attached, None)
}

/// The same, but what callers choose is hashed under the keys that were drawn, if some were. Draw them if callers
/// aren't trusted: without them a caller can make its own look-ups, and those of others, slow.
pub fn begin_keyed<K: Keeper>(
    alloc: Global,
    device: Device,
    attached: Attached<K>,
    drawn: Option<RandomState>,
) -> Result<Manager<K>, BeginFault>
    requires { CanBegin K.Keeper device attached.rows attached.keeper }
    ensures begun { IfOk result (Begins K.Keeper device attached.rows attached.keeper) }
    ensures refused { IfErr result (λ fault. Refuses fault (opening_with device attached.rows)) }
{
    let Attached { keeper, rows } = attached;
    let opened = Opened::with(&device, &rows);
    let live = open_live(alloc, drawn, device, &rows);
    drop(rows);
    match live {
        Ok(live) => Ok(Manager {
            opened,
            live,
            history: Archive::new(alloc),
            weight: 0,
            keeper,
        }),
        Err(fault) => {
            drop(keeper);
            Err(fault)
        }
    }
}

/// The live state in which a device is opened with those rows.
fn open_live(
    alloc: Global,
    drawn: Option<RandomState>,
    device: Device,
    rows: &Rows,
) -> Result<Live, BeginFault>
    requires sound { IsSound device }
    requires order { IsInOrder rows.now }
    ensures opens { IfOk result (λ live. opening_with device rows.now ≡ Ok live) }
    ensures refused { IfErr result (λ fault. Refuses fault (opening_with device rows.now)) }
{
    match open(alloc, device, rows) {
        Ok(opened) => {
            let live = Live::from_device(alloc, drawn, opened.device, opened.next_uid)?;
            Ok(live)
        }
        Err(fault) => Err(fault),
    }
}

// The manager that began, unless memory ran out.
fn begun<K: Keeper>(manager: Result<Manager<K>, BeginFault>) -> Result<Manager<K>, NoMemory>
    requires { IfErr manager IsNoMemory }
    ensures { IfOk result (λ begun. manager ≡ Ok begun) }
{
    match manager {
        Ok(manager) => Ok(manager),
        Err(BeginFault::NoMemory) => Err(NoMemory),
        Err(BeginFault::Rows(_)) => unreachable!(),
    }
}

/// A manager of a sound device of which nothing was kept, over a keeper without rows, with no history. It keeps the
/// allocator for its later calls.
pub fn begin_fresh<K: Keeper>(
    alloc: Global,
    device: Device,
    keeper: K,
) -> Result<Manager<K>, NoMemory>
    requires sound { IsSound device }
    requires told { K.is_honest keeper → (told : Told) → K.rows keeper ≡ Some told → no_rows ≡ told }
    ensures { IfOk result (λ manager. BeginsWith device manager) }
{
    let rows = RowsBuilder::new(alloc).finish();
    begun(begin_keyed(alloc, device, Attached { keeper, rows }, None))
}
