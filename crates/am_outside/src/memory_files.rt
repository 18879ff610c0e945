//! Files in memory, whose content and failures are given.
ghost use Rattle.std.specs.Prelude.{◌≡◌, Some};
ghost use Rattle.std.specs.Option.{option_map};
ghost use Rattle.am_outside.specs.Files.{bytes_of, AreDistinct};

use crate::memory::is_failing;
use crate::{FileBytes, FileFail, Files};
use am_types::{List, Text};
use std::alloc::Global;
use std::marker::Model;

/// Files in memory.
#[derive(Drop)]
pub struct MemoryFiles {
    alloc: Global,
    files: List<FileBytes>,
    failing: List<u32>,
    reads: u64,
    faults: u64,
}

impl Model for MemoryFiles {
    ghost use Rattle.am_outside.specs.Stored.{Shelf};

    ghost Value = { Shelf };

    ghost view = { λ s. record { files = s.files; failing = s.failing; reads = s.reads; faults = s.faults } };
}

impl MemoryFiles {
    /// These files, whose names are distinct. The reads with these numbers, counted from 1, fail
    /// if the name is held, and no other. Takes no memory.
    pub fn new(alloc: Global, files: List<FileBytes>, failing: List<u32>) -> MemoryFiles
        requires { AreDistinct files }
        ensures { result ≡ record { files = files; failing = failing; reads = 0; faults = 0 } }
    {
        MemoryFiles {
            alloc,
            files,
            failing,
            reads: 0,
            faults: 0,
        }
    }
}

// The file of that name.
fn find_file<'a>(files: &'a [FileBytes], name: &Text) -> Option<&'a FileBytes>
    ensures { option_map (λ file. file.now.bytes) result ≡ bytes_of name.now files.now }
{
    for file in files {
        if file.name == *name {
            return Some(file);
        }
    }
    None
}

impl Files for MemoryFiles {
    ghost use Rattle.std.specs.Prelude.{Some};

    ghost files = { λ s. Some s.files };

    ghost faults = { λ s. s.faults };

    fn read_file(&mut self, name: &Text) -> Result<Vec<u8>, FileFail> {
        self.reads = self.reads.saturating_add(1);
        let Some(file) = find_file(self.files.as_slice(), name) else {
            return Err(FileFail::Absent);
        };
        if is_failing(&self.failing, self.reads) {
            self.faults = self.faults.saturating_add(1);
            return Err(FileFail::Failed);
        }
        Ok(file.bytes.as_slice().to_vec(self.alloc)?)
    }
}
