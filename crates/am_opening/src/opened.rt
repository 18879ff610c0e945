//! The result of opening a device.
ghost use Rattle.std.specs.Prelude.{◌≡◌};
ghost use Rattle.am_opening.specs.declared.opened.BeginFault.TheVariants.{NoMemory};

use am_types::{Device, NoMemory, Text};
use std::alloc::{AllocError, AllocFailed};

/// A device after it was opened, and the uid that the next package gets.
#[derive(Drop)]
pub struct Opened {
    pub device: Device,
    /// One more than the greatest uid that was ever given, even to packages that are gone.
    pub next_uid: u32,
}

/// Why a device can't be opened with its rows.
#[derive(Drop)]
pub enum BeginFault {
    /// The row of the package with this name is refused, or the package has more than 256 grants or
    /// more than 256 links.
    Rows(Text),
    /// Memory ran out.
    NoMemory,
}

impl From<AllocError> for BeginFault {
    ghost from_gives = { λ _ e. e ≡ NoMemory };

    fn from(_error: AllocError) -> BeginFault {
        BeginFault::NoMemory
    }
}

impl From<NoMemory> for BeginFault {
    ghost from_gives = { λ _ e. e ≡ NoMemory };

    fn from(_error: NoMemory) -> BeginFault {
        BeginFault::NoMemory
    }
}

impl<T: Drop> From<AllocFailed<T>> for BeginFault {
    ghost from_gives = { λ _ e. e ≡ NoMemory };

    fn from(_error: AllocFailed<T>) -> BeginFault {
        BeginFault::NoMemory
    }
}
