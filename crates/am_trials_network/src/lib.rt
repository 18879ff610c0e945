//! A gate in memory that parks links, and a network of such gates.
#![tactic(auto)]

mod resting_gate;
mod resting_link;
mod resting_network;

pub use resting_gate::RestingGate;
pub use resting_link::{ParkedLink, RestingLink, RestingPlan};
pub use resting_network::RestingNetwork;
