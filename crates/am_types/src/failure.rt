use std::alloc::{AllocError, AllocFailed};
use std::error::Error;
use std::fmt;

/// Memory ran out. What was called is as it was before, unless the call says otherwise.
#[derive(Clone, Copy, Debug, PartialEq, Eq)]
pub struct NoMemory;

impl fmt::Display for NoMemory {
    fn fmt<W: fmt::Write>(&self, f: &mut fmt::Formatter<W>) -> fmt::Result {
        f.write_str("out of memory")
    }
}

impl Error for NoMemory {}

impl From<AllocError> for NoMemory {
    fn from(_error: AllocError) -> NoMemory {
        NoMemory
    }
}

impl<T: Drop> From<AllocFailed<T>> for NoMemory {
    fn from(_error: AllocFailed<T>) -> NoMemory {
        NoMemory
    }
}

/// Why nothing was made from what was given.
#[derive(Debug, Drop)]
pub enum Unmade<F> {
    /// What is wrong with it: the first fault that is met.
    Fault(F),
    /// Memory ran out.
    NoMemory,
}

impl<F> From<AllocError> for Unmade<F> {
    ghost use Rattle.std.specs.Prelude.{◌≡◌};
    ghost use Rattle.am_types.specs.declared.failure.Unmade.TheVariants as unmade;

    ghost from_gives = { λ _ e. e ≡ unmade.NoMemory };

    fn from(_error: AllocError) -> Unmade<F> {
        Unmade::NoMemory
    }
}

impl<F, T: Drop> From<AllocFailed<T>> for Unmade<F> {
    ghost use Rattle.std.specs.Prelude.{◌≡◌};
    ghost use Rattle.am_types.specs.declared.failure.Unmade.TheVariants as unmade;

    ghost from_gives = { λ _ e. e ≡ unmade.NoMemory };

    fn from(_error: AllocFailed<T>) -> Unmade<F> {
        Unmade::NoMemory
    }
}

/// As a line shows it: the fault, or `no_memory`.
impl<F: fmt::Display> fmt::Display for Unmade<F> {
    ghost use Rattle.am_types.specs.Printing.{printed_unmade};

    ghost output = { printed_unmade F.output };

    fn fmt<W: fmt::Write>(&self, f: &mut fmt::Formatter<W>) -> fmt::Result {
        match self {
            Unmade::Fault(fault) => fmt::Display::fmt(fault, f),
            Unmade::NoMemory => f.write_str("no_memory"),
        }
    }
}

impl<F: fmt::Debug + fmt::Display + Drop> Error for Unmade<F> {}
