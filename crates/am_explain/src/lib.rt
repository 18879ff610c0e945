//! What an intent reaches, component by component, and why it doesn't reach the others.
#![tactic(auto)]

mod asking;
mod contest;
mod explain;
mod laws;
mod naming;
mod phone;
mod reaching;
mod standing;
mod tested;
mod walk;

pub use asking::Question;
pub use explain::accounts;
pub use laws::{
    activities_are_started, reasons_are_of_filters, receivers_are_sent_to, services_are_started,
};
