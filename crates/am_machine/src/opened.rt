//! The device and the rows that a manager was opened with, only for contracts.
ghost use Rattle.std.specs.Prelude.{◌≡◌};
ghost use Rattle.std.specs.Borrow.{ftrue};
ghost use Rattle.am_types.specs.declared.device.Device.{Device};
ghost use Rattle.am_keeper.specs.declared.rows.Rows.{Rows as Kept};

use am_keeper::Rows;
use am_types::Device;
use std::marker::Model;

/// Names the device and the rows that a manager was opened with. Only contracts read it: it takes no bytes.
#[derive(Drop)]
pub struct Opened {
    pub ghost device: { Device },
    pub ghost rows: { Kept },
}

impl Model for Opened {
    ghost also_owns = { λ _. ftrue };
}

// It owns nothing, so threads may pass it on and share it.
unsafe impl Send for Opened {}

unsafe impl Sync for Opened {}

impl Opened {
    /// Names this device and these rows. Takes no memory.
    pub fn with(_device: &Device, _rows: &Rows) -> Opened
        ensures { (result.device ≡ _device.now) × (result.rows ≡ _rows.now) }
    {
        Opened {}
    }
}
