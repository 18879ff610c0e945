//! The outside of a real process, as the traits that the program takes. These few lines are trusted: they count each
//! fault, and tell nothing of what is read or written.
#![tactic(auto)]

mod clock;
mod files;
mod streams;
mod words;

pub use clock::SystemClock;
pub use files::SystemFiles;
pub use streams::Counted;
pub use words::read_words;
