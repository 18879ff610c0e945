//! Pending intents: records that lend their creator's identity to whoever holds their token.
#![tactic(auto)]

mod hashing;
mod index;
mod key;
mod pendings;
mod record;
mod records;

pub use am_types::{PendingFault, Used};
pub use pendings::Pending;
