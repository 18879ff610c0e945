//! The store of kept rows of a real process: databases in files. These few lines are trusted: they count each fault,
//! and tell nothing of the rows.
#![tactic(auto)]

mod keeper;
mod store;

pub use keeper::FileKeeper;
pub use store::SqlStore;
