//! Broadcasts that are live: normal ones, two queues of ordered ones, and results.
#![tactic(auto)]

mod inbox;
mod puts;
mod queues;
mod results;
mod settling;

pub use am_types::{FinishFault, SendFault, Sending, Spot};
pub use queues::{LAST_BROADCAST, LAST_MOMENT, Queues};
