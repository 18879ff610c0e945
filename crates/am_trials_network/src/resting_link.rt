//! The links of a gate in memory that parks links.

use am_network::{MemoryWriter, Progress, RestingReader};
use am_outside::{MemorySink, MemorySource};
use am_types::List;

/// A link that is to come: its reader and its writer, which are unused, and when the reader isn't ready.
#[derive(Drop)]
pub struct RestingPlan {
    /// Where its bytes come from.
    pub reader: MemorySource,
    /// Where its bytes go.
    pub writer: MemorySink,
    /// The numbers of the calls of its reader's `is_ready` that say no, counted from 1.
    pub pauses: List<u32>,
}

/// A link that a gate took back.
#[derive(Drop)]
pub struct RestingLink {
    /// Its reader, as it came back.
    pub reader: RestingReader,
    /// Its writer, as it came back.
    pub writer: MemoryWriter,
}

/// A link that a gate hands out again.
#[derive(Drop)]
pub struct ParkedLink {
    /// Its two ends, as they came back.
    pub link: RestingLink,
    /// How far it is.
    pub progress: Progress,
}
