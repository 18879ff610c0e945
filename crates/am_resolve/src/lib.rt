//! The board of a device: what is installed, which components an intent reaches, and who a broadcast is offered to.
#![tactic(auto)]

mod board;
mod choice;
mod names;
mod narrow;
mod offers;
mod order;
mod receivers;
mod skips;
mod top;

pub use board::Board;
pub use choice::phone_choice;
pub use names::is_for;
pub use narrow::{approves, host_to_view};
pub use offers::{Offer, registered_offer};
pub use skips::skip_of;
pub use top::is_tied;
