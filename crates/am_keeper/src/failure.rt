use std::alloc::{AllocError, AllocFailed};
use std::error::Error;
use std::fmt;

/// Why a keeper or a store didn't do what it was asked to do.
#[derive(Clone, Copy, Debug, PartialEq, Eq)]
pub enum KeepFail {
    /// The store failed, and the count of faults rose.
    Failed,
    /// Memory ran out.
    NoMemory,
}

impl fmt::Display for KeepFail {
    fn fmt<W: fmt::Write>(&self, f: &mut fmt::Formatter<W>) -> fmt::Result {
        f.write_str(match self {
            KeepFail::Failed => "the store failed",
            KeepFail::NoMemory => "out of memory",
        })
    }
}

impl Error for KeepFail {}

impl From<AllocError> for KeepFail {
    ghost use Rattle.std.specs.Prelude.{◌≡◌};
    ghost use Rattle.am_keeper.specs.declared.failure.KeepFail.TheVariants.{NoMemory};

    ghost from_gives = { λ _ fail. fail ≡ NoMemory };

    fn from(_error: AllocError) -> KeepFail {
        KeepFail::NoMemory
    }
}

impl<T: Drop> From<AllocFailed<T>> for KeepFail {
    ghost use Rattle.std.specs.Prelude.{◌≡◌};
    ghost use Rattle.am_keeper.specs.declared.failure.KeepFail.TheVariants.{NoMemory};

    ghost from_gives = { λ _ fail. fail ≡ NoMemory };

    fn from(_error: AllocFailed<T>) -> KeepFail {
        KeepFail::NoMemory
    }
}
