//! All frames of a connection and the responses to them, checked against a history.
#![tactic(auto)]

mod audit;
mod endings;
mod target;

pub use audit::{Verdict, audit_frames};
