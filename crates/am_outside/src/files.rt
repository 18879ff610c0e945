//! Files that are read whole, by their names.
ghost use Rattle.std.specs.Prelude.{◌≡◌, ℕ, ◌≤◌, List as Items, Option};

use am_types::{List, Text};
use std::alloc::{AllocError, AllocFailed};

/// A file's name with its bytes.
#[derive(Drop)]
pub struct FileBytes {
    pub name: Text,
    pub bytes: List<u8>,
}

/// Why a file wasn't read.
#[derive(Clone, Copy, Debug, PartialEq, Eq)]
pub enum FileFail {
    /// There is no file of that name.
    Absent,
    /// The file couldn't be read, and the count of faults rose.
    Failed,
    NoMemory,
}

impl From<AllocError> for FileFail {
    ghost use Rattle.am_outside.specs.declared.files.FileFail.TheVariants.{NoMemory};
    ghost use Rattle.std.specs.Prelude.{◌≡◌};

    ghost from_gives = { λ _ e. e ≡ NoMemory };

    fn from(_error: AllocError) -> FileFail {
        FileFail::NoMemory
    }
}

impl<T: Drop> From<AllocFailed<T>> for FileFail {
    ghost use Rattle.am_outside.specs.declared.files.FileFail.TheVariants.{NoMemory};
    ghost use Rattle.std.specs.Prelude.{◌≡◌};

    ghost from_gives = { λ _ e. e ≡ NoMemory };

    fn from(_error: AllocFailed<T>) -> FileFail {
        FileFail::NoMemory
    }
}

/// A reader of files.
pub trait Files {
    ghost use Rattle.am_outside.specs.Files.{ReadsFile};
    ghost use Rattle.am_outside.specs.declared.files.FileBytes.{FileBytes};
    ghost use Rattle.std.specs.Prelude.{◌≡◌, ℕ, ◌≤◌, List as Items, Option};

    /// The files with their bytes, if the reader tells them.
    ghost files: { Self → Option (Items FileBytes) };

    /// How many reads failed. It stays at the greatest 64-bit number.
    ghost faults: { Self → ℕ };

    /// The bytes of the file of that name, whole.
    fn read_file(&mut self, name: &Text) -> Result<Vec<u8>, FileFail>
        ensures answer { ReadsFile (λ bytes. bytes.items) (files self.old) name.now
            (faults self.old) (faults self.new) result }
        ensures never_falls { faults self.old ≤ faults self.new }
        ensures files { files self.new ≡ files self.old };
}
