//! Running services.
#![tactic(auto)]

mod services;

pub use services::Services;
