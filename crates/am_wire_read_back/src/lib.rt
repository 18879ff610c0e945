//! The text of a request's body, which the request's endpoint reads back as the request.
#![tactic(auto)]

mod bodies;

pub use bodies::request_text;
