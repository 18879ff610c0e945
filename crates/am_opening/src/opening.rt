//! Opens a device with the rows that were kept of it.
ghost use Rattle.std.specs.Prelude.{◌≤◌, IfOk};
ghost use Rattle.am_keeper.specs.Rows.{IsInOrder};
ghost use Rattle.am_model.specs.Sound.{IsSound};
ghost use Rattle.am_history.specs.Opening.{opening_with};
ghost use Rattle.am_history.specs.Packages.{no_uid};
ghost use Rattle.am_opening.specs.Openings.{Opens};

use crate::completed::opened_from;
use crate::opened::{BeginFault, Opened};
use crate::packages::after_rows;
use crate::uids;
use am_keeper::Rows;
use am_types::Device;
use std::alloc::Global;

/// What the device opens as.
fn opened_with(alloc: Global, device: Device, rows: &Rows) -> Result<Opened, BeginFault>
    requires sound { IsSound device }
    requires order { IsInOrder rows.now }
    ensures opens { Opens result (opening_with device rows.now) }
    ensures fits { IfOk result (λ opened. opened.next_uid ≤ no_uid) }
{
    let greatest = uids::greatest_of(device.packages.as_slice());
    let opened = Opened {
        device,
        next_uid: greatest + 1,
    };
    match after_rows(alloc, opened, rows.packages.as_slice()) {
        Ok(opened) => opened_from(alloc, opened, greatest, rows),
        Err(fault) => Err(fault),
    }
}

/// Opens a sound device with the rows that were kept of it. Returns the device, which is sound
/// again, and the uid that is given next.
///
/// Package rows are applied first, then grant and link rows. A package that is gone is removed with
/// its grants and links; any other package is added, stopped. A grant or link row of a package that
/// isn't there is ignored, as is a link row whose host isn't in lower ASCII case.
///
/// # Errors
///
/// `BeginFault::Rows` names the first package row that is refused: a row with the greatest uid, or one
/// whose text isn't a manifest with its name, whose uid is below 10,000, whose key isn't valid, whose
/// uid, name or key is in use, or that would add the 257th package. If no row is refused, it names the
/// package with the least uid that has more than 256 grants or more than 256 links.
/// `BeginFault::NoMemory` may come at any point.
pub fn open(alloc: Global, device: Device, rows: &Rows) -> Result<Opened, BeginFault>
    requires sound { IsSound device }
    requires order { IsInOrder rows.now }
    ensures opens { Opens result (opening_with device rows.now) }
    ensures sound { IfOk result (λ opened. IsSound opened.device) }
{
    opened_with(alloc, device, rows)
}
