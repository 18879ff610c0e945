//! The activity manager of one device for one thread, and a desk on which it is called.
#![tactic(auto)]

mod acts;
mod archive;
mod beginning;
mod keeping;
mod laws;
mod manager;
mod opened;
mod packed;
mod reads;
mod sole;
mod step;

pub use am_desk::Desk;
pub use am_opening::BeginFault;
pub use beginning::{begin, begin_fresh, begin_keyed};
pub use manager::Manager;
pub use sole::SoleDesk;
