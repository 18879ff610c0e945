//! Values in a form that takes little memory: as bytes, from which they are read back.
#![tactic(auto)]

mod filters;
mod form;
mod intents;
mod lists;
mod numbers;
mod parts;
mod texts;

pub use form::{Pack, Parts};
pub use parts::{bytes_of, value_of};
