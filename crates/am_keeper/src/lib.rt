//! What a device keeps across runs: the rows, the keeper that puts them, the store that hands
//! keepers out, and both of them in memory.
#![tactic(auto)]

mod asking;
mod builder;
mod clones;
mod failure;
mod keeper;
mod logged;
mod memory;
mod rank;
mod rows;
mod store;

pub use asking::put_row;
pub use builder::RowsBuilder;
pub use failure::KeepFail;
pub use keeper::{Attached, Keeper, Store};
pub use memory::MemoryKeeper;
pub use rows::{GrantRow, LinkRow, PackageRow, Row, Rows};
pub use store::{MemoryStore, StoredRows};
