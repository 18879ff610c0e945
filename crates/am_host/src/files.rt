//! The files of the system.
ghost use Rattle.std.specs.Prelude.{◌≡◌, None, ◌≤◌};

use am_outside::{FileFail, Files};
use am_types::Text;
use std::fs;
use std::io::ErrorKind;
use std::rt::Files as Storage;

/// The files of the system. One that is absent is a fault.
#[derive(Drop)]
pub struct SystemFiles<R> {
    rt: R,
    faults: u64,
}

impl<R> SystemFiles<R> {
    /// The files that the runtime reaches.
    pub fn new(rt: R) -> SystemFiles<R> {
        SystemFiles { rt, faults: 0 }
    }
}

impl<R: Storage + AllocGlobal> Files for SystemFiles<R> {
    ghost files = { λ s. None };

    ghost faults = { λ s. s.faults };

    fn read_file(&mut self, name: &Text) -> Result<Vec<u8>, FileFail> {
        match fs::read(&self.rt, name.as_str()) {
            Ok(bytes) => Ok(bytes),
            Err(error) if error.kind() == ErrorKind::OutOfMemory => Err(FileFail::NoMemory),
            Err(_) => {
                self.faults = self.faults.saturating_add(1);
                Err(FileFail::Failed)
            }
        }
    }
}
