use crate::{Reply, Request, drop_parts};

/// A stored call in the history.
pub struct Entry {
    pub desk: u32,
    pub uid: u32,
    /// The moment handed in, in milliseconds.
    pub now: u64,
    /// The length of the request's body, in bytes.
    pub weight: u32,
    pub request: Request,
    /// False if the keeper failed, so that the request had no effect.
    pub kept: bool,
}

impl Drop for Entry {
    fn drop(self) {
        drop_parts!(self, Entry: desk uid now weight request kept);
    }
}

/// A reply with its place in the history.
pub struct Shown {
    /// The number of entries before the call.
    pub at: u64,
    /// Whether the call is stored, as entry `at`.
    pub stored: bool,
    pub reply: Reply,
}

impl Drop for Shown {
    fn drop(self) {
        drop_parts!(self, Shown: at stored reply);
    }
}
