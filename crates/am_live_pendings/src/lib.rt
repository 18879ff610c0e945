//! Pending intents as callers ask for them, over the board and the pending intents of a device.
#![tactic(auto)]

mod pendings;

pub use pendings::{cancel, get, give, in_new_task, refused, use_up};
