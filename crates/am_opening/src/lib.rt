//! Opens a device with the rows that were kept of it.
#![tactic(auto)]

mod completed;
mod merging;
mod opened;
mod opening;
mod packages;
mod rights;
mod rows;
mod uids;

pub use opened::{BeginFault, Opened};
pub use opening::open;
