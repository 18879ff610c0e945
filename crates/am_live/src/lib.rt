//! The live state of a device: its parts, and what requests do to them.
#![tactic(auto)]

mod activities;
mod broadcasts;
mod explaining;
mod live;
mod packages;
mod pendings;
mod reads;
mod services;

pub use am_live_callers::Caller;
pub use am_live_packages::{Change, Plan, RightChange};
pub use live::Live;
