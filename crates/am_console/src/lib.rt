//! Why a run of either program doesn't get to its work, the device file that both begin with, and how both tell what
//! became of it.
#![tactic(auto)]

mod device;
mod setback;
mod telling;

pub use device::{parse_device, refusal};
pub use setback::Setback;
pub use telling::{print, tell};
