//! What a plan reads from the live state.

use am_resolve::Board;
use am_types::Text;
use std::alloc::Global;

/// What a plan has to know about a device: the keys of its system and its root, its board and the next uid; with the
/// allocator.
#[derive(Drop)]
pub struct Known<'a> {
    pub alloc: Global,
    pub system_key: &'a Text,
    pub root_key: &'a Option<Text>,
    pub board: &'a Board,
    pub next_uid: u32,
}
