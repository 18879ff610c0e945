//! Reads components, extras, flags, intents and filters from JSON values. The result is what was read, or the first
//! fault found.
#![tactic(auto)]

mod components;
mod extras;
mod filters;
mod flags;
mod intents;
mod rows;

pub use components::{component_in, optional_component};
pub use extras::{extras_in, optional_extras};
pub use filters::filter_in;
pub use flags::flags_of;
pub use intents::{intent_in, optional_intent, required_intent};
