//! What is installed on a device and what was given to it: packages, grants, links and registered
//! receivers.
#![tactic(auto)]

mod find;
mod installed;
mod lists;
mod rights;

pub use find::{caller_named, decl_in, declared, package_at, uid_named};
pub use installed::Installed;
pub use lists::{drop_package, take};
pub use rights::{Right, drop_rights_of, stands_before};
