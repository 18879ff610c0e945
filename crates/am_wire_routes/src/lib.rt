//! The routes of the HTTP interface: which request a method and a target ask for, and which path each request has.
#![tactic(auto)]

mod endpoint;
mod routes;

pub use endpoint::{Endpoint, endpoint_of};
pub use routes::{RouteFault, Routes};
