//! The memory of a connection, made once.
ghost use Rattle.std.specs.Prelude.{◌≤◌, IfOk, vec_capacity};

use crate::response::NO_MEMORY_ROOM;
use crate::window::Window;
use am_types::NoMemory;
use am_wire_routes::Routes;
use std::alloc::Global;

/// The room for one frame, the room for the text that says that memory ran out, and the routes. A worker
/// makes it once and serves its connections with it, one after the other.
#[derive(Drop)]
pub struct Buffers {
    pub(crate) window: Window,
    pub(crate) room: Vec<u8>,
    pub(crate) routes: Routes,
    ghost has_room: { 192 ≤ vec_capacity room },
}

impl Buffers {
    /// Takes the memory for the frames of a connection, and for the routes.
    pub fn new(alloc: Global) -> Result<Buffers, NoMemory> {
        Ok(Buffers {
            window: Window::new(alloc)?,
            room: Vec::with_capacity(alloc, NO_MEMORY_ROOM)?,
            routes: Routes::new(alloc)?,
        })
    }
}
