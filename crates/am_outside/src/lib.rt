//! The traits of the outside: sources, sinks, files and clocks; and their objects in memory.
#![tactic(auto)]

mod calls;
mod clock;
mod failure;
mod files;
mod memory;
mod memory_files;
mod outside;

pub use calls::Calls;
pub use clock::{Clock, StepClock};
pub use failure::Failed;
pub use files::{FileBytes, FileFail, Files};
pub use memory::{MemorySink, MemorySource, is_failing};
pub use memory_files::MemoryFiles;
pub use outside::{Sink, Source};
