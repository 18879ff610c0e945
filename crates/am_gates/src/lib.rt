//! Whether a caller may reach a component.
#![tactic(auto)]

mod gate;

pub use gate::{
    Ruling, holds, holds_named, is_granted, is_privileged, is_withheld, refusal, verdict,
};
