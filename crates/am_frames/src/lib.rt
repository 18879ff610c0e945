//! The frames of HTTP/1.x: where the first request of some bytes ends, how long it is to be, or why it is refused. This is the
//! only place where the limits of a frame are.
#![tactic(auto)]

mod announced;
mod fields;
pub mod frame;
mod length;

pub use announced::{Announced, announced_length};
