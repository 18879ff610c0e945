//! Who makes a call, and whether that caller may reach a component.
#![tactic(auto)]

mod callers;
mod gates;

pub use callers::{Caller, is_key_used, key_of_package, uid_of};
pub use gates::gate;
