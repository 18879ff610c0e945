//! Why a run doesn't get to its work, and the status that tells it.
ghost use Rattle.std.specs.Prelude.{◌≡◌};
ghost use Rattle.am_console.specs.Setbacks.{setback_status};

use am_outside::FileFail;
use am_types::{NoMemory, Text};

/// Why a run of either program doesn't get to its work.
#[derive(Drop)]
pub enum Setback {
    /// The device file has a fault, which this line names.
    DeviceRefused(Text),
    /// A file couldn't be read.
    FileFault,
    /// Memory ran out.
    NoMemory,
}

impl From<NoMemory> for Setback {
    ghost use Rattle.std.specs.Prelude.{◌≡◌};
    ghost use Rattle.am_console.specs.declared.setback.Setback.TheVariants as setbacks;

    ghost from_gives = { λ _ setback. setback ≡ setbacks.NoMemory };

    fn from(_: NoMemory) -> Setback {
        Setback::NoMemory
    }
}

impl From<FileFail> for Setback {
    ghost use Rattle.std.specs.Prelude.{◌≡◌};
    ghost use Rattle.am_console.specs.Setbacks.{setback_of_fail};

    ghost from_gives = { λ fail setback. setback ≡ setback_of_fail fail };

    fn from(fail: FileFail) -> Setback {
        match fail {
            FileFail::Absent | FileFail::Failed => Setback::FileFault,
            FileFail::NoMemory => Setback::NoMemory,
        }
    }
}

impl Setback {
    /// The status that tells it.
    pub fn status(&self) -> u8
        ensures { result ≡ setback_status self.now }
    {
        match self {
            Setback::DeviceRefused(_) => 3,
            Setback::FileFault => 4,
            Setback::NoMemory => 8,
        }
    }
}
