//! The deliveries of normal broadcasts, found by number, by deadline and by uid.
#![tactic(auto)]

mod deliveries;
mod delivery;
mod normals;
mod pairs;

pub use normals::{Begin, Normals};
