//! The top call of the checker of transcripts.
#![tactic(auto)]

mod contents;
mod finding;
mod program;
mod telling;
mod words;

pub use finding::{Finding, Part};
pub use program::audit;
pub use telling::tell_no_memory;
