//! How far a link is between two visits.

/// How far a link is that comes again.
#[derive(Clone, Copy)]
pub struct Progress {
    /// How many of its frames were answered.
    pub answered: u32,
    /// The least place in the history that a further answer may have.
    pub least: u64,
}
