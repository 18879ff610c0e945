//! Tasks and the back stack: which task a started activity is put in, and what ends activities.
#![tactic(auto)]

mod carry;
mod find;
mod leave;
mod plan;
mod task;
mod tasks;
mod views;

pub use am_types::{PlaceFault, StartCall, TaskFault};
pub use tasks::Tasks;
