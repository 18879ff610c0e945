//! A drill: a device and requests that are made from a number, and the manager's replies to them. The same number
//! makes the same device and the same requests.
#![tactic(auto)]

mod calls;
mod devices;
mod draws;
mod drills;
mod manager;
mod requests;
mod runs;
mod tally;
mod texts;

pub use drills::drill;
pub use tally::Tally;
