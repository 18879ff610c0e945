//! The history that a file is: each line an entry, as the manager shows it, and each entry a call that the manager
//! replays.
#![tactic(auto)]

mod history;
mod keeper;
mod line;
mod numbers;
mod replayed;
mod request;
mod text;

pub use history::{lines_in, read_history};
pub use replayed::{Call, Replayed};
pub use request::{has_few_rows, is_same_request};
