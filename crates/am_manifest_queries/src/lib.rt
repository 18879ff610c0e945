//! Reads what the packages of a device file ask to see: the table `queries` of each manifest. The result is the value,
//! or the first fault with its place.
#![tactic(auto)]

mod device;
mod queries;
mod signature;

pub use device::{Described, read_described, read_queries};
