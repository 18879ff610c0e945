//! An index of the components of packages by what their filters list: action, scheme and type.
#![tactic(auto)]

mod finding;
mod found;
mod groups;
mod index;
mod key;
mod lists;
mod lookup;
mod merge;
mod search;
mod turn;

pub use finding::{
    counted_priority, earlier, finding_by, greatest, is_found, is_heard, plain_finding,
};
pub use index::FilterIndex;
pub use search::Search;
