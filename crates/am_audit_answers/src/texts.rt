//! The texts of responses.
ghost use Rattle.std.specs.Prelude.{◌≡◌, ◌≤◌, ◌++◌, ℕ, List as Items, IsTrue, IfOk, drop, length};
ghost use Rattle.am_http.specs.Responses.{no_memory_at};

use am_http::{NO_MEMORY_ROOM, put_no_memory_at};
use am_types::NoMemory;
use std::alloc::Global;

/// Whether the bytes begin with the text. Takes no memory.
pub(crate) fn begins(bytes: &[u8], text: &[u8]) -> bool
    ensures begins { IsTrue result → bytes.now ≡ text.now ++ drop (length text.now) bytes.now }
    ensures fits { IsTrue result → length text.now ≤ length bytes.now }
    ensures none { (rest : Items ℕ) → bytes.now ≡ text.now ++ rest → IsTrue result }
{
    bytes.starts_with(text)
}

/// The response if memory ran out after the call was made.
pub(crate) fn no_memory_at(alloc: Global, at: u64, stored: bool) -> Result<Vec<u8>, NoMemory>
    ensures { IfOk result (λ text. text.items ≡ no_memory_at at stored) }
{
    let mut text = Vec::with_capacity(alloc, NO_MEMORY_ROOM)?;
    put_no_memory_at(&mut text, at, stored);
    Ok(text)
}
