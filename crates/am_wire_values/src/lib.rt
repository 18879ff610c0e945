//! Requests and replies as JSON values.
#![tactic(auto)]

mod accounts;
mod as_value;
mod fields;
mod filters;
mod intents;
mod names;
mod replies;
mod requests;
mod rules;
mod views;

pub use intents::{extras_value, intent_value};
pub use names::{narrowing_name, placed_name, why_name};
pub use replies::{reply_status, reply_value};
pub use requests::request_value;
pub use rules::{named_by, rule_name};
pub use views::number_after;
