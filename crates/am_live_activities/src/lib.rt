//! Starting and ending activities, over the board and the tasks of a device.
#![tactic(auto)]

mod activities;

pub use activities::{Asked, back, components_of, finish_activity, start};
