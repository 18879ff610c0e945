//! One manager, shared by the desks of many threads.
#![tactic(auto)]

mod baton;
mod closing;
mod rule;
mod shared;
mod sharing;
mod view;

pub use closing::close;
pub use shared::SharedDesk;
pub use sharing::share;
