//! Replies and refusals as JSON texts, printed as they are read off: only the intents, extras and requests in a reply
//! are made into values first.
#![tactic(auto)]

mod accounts;
mod entries;
mod items;
mod names;
mod printed;
mod printer;
mod replies;
mod rules;
mod trees;
mod views;

pub use replies::reply_text;
pub use rules::error_text;
