//! A keeper over a SQL database, in memory or in a file.
#![tactic(auto)]

mod attach;
mod cells;
mod connection;
mod database;
mod keeper;
mod putting;
mod shape;
mod table;

pub use attach::{attach_from, attach_sql};
pub use keeper::SqlKeeper;
