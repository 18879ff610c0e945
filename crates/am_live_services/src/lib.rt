//! Starting and stopping services, over the board and the running services of a device.
#![tactic(auto)]

mod services;

pub use services::{start_service, stop_service};
