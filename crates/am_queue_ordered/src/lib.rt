//! Ordered broadcasts, whose receivers take turns one after the other.
#![tactic(auto)]

mod counts;
mod ended;
mod in_turn;
mod past;
mod queue;
mod struck;

pub use counts::Counts;
pub use ended::Final;
pub use in_turn::InTurn;
pub use past::{Current, Doing, Past};
pub use queue::Queue;
pub use struck::Struck;
