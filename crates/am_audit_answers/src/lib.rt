//! One frame of a connection and its response, held against a history.
#![tactic(auto)]

mod calls;
mod judging;
mod marks;
mod matching;
mod places;
mod requests;
mod texts;

pub use judging::{Accepted, judge};
