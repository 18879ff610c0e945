//! The filter test, which filters an intent finds, how the data rows of a filter merge, when two intents are the same
//! for a filter, and what one intent fills in from another.
#![tactic(auto)]

mod cuts;
mod data;
mod equal;
mod fill;
mod filter;
mod rows;

pub use am_types::{FillFault, Why};
pub use cuts::{cut_of, is_browsers, is_web_scheme, reached};
pub use data::{has_host, is_any_type, passes_type};
pub use equal::filter_equals;
pub use fill::fill_in;
pub use filter::{finds, hears, lists, lists_all, lists_default, passes};
pub use rows::{DataRow, DataRows, Paths, merge_rows};
