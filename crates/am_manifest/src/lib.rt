//! Reads device files and manifests, which are TOML, and reports the first fault in them.
#![tactic(auto)]

mod components;
mod device;
mod manifest;
mod print;
mod rights;

pub use am_manifest_filters::ReadFault;
pub use device::{read_device, text_of};
pub use manifest::{read_package, root_of};
pub use print::print_fault;
