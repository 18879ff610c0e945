//! How a phone narrows the activities that a web intent finds, and which of them a caller may start.
#![tactic(auto)]

mod approvals;
mod browsers;
mod domain;
mod leading;
mod starting;
mod web;

pub use leading::{Leading, Narrowed, hits_of, is_left, narrow};
pub use starting::may_start;
pub use web::{are_web_categories, is_view, web_host};
