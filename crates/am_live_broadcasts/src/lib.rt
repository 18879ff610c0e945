//! Broadcasts, registered receivers and deliveries, over the board and the broadcasts of a device.
#![tactic(auto)]

mod broadcasts;
mod inbox;
mod sending;

pub use broadcasts::{Message, finish, register, send, unregister};
pub use inbox::inbox_at;
