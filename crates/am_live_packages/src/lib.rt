//! Calls on packages that keep a row: what is planned for them, and what they change.
#![tactic(auto)]

mod change;
mod known;
mod plans;
mod rights;

pub use change::{Change, Plan, RightChange};
pub use known::Known;
pub use rights::{set_right, take_right, take_unless_held};
