//! Reads the values at the keys of TOML tables, and the intent filters that a component's table lists. The
//! result is the value, or the first fault with its place.
#![tactic(auto)]

mod fault;
mod filters;
mod place;
mod rows;
mod tables;

pub use fault::ReadFault;
pub use filters::{Filters, filters_at};
pub use place::{Position, over_limit, within_key};
pub use rows::{mime_at, scheme_at};
pub use tables::{
    at_most, entry_table, only_keys, optional_text, optional_truth, optional_values, read_each,
    required_text, texts_at,
};
