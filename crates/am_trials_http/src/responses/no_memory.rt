//! A desk that has no memory for any call.
use am_desk::{Desk, DeskCall};
use am_http::{Buffers, serve_connection};
use am_manifest::read_device;
use am_outside::{MemorySink, MemorySource, StepClock};
use am_trials_spelling::EMPTY;
use am_types::{Device, List, NoMemory, Shown};
use std::alloc::Global;
use std::test::Fail;

/// A desk whose manager is never asked.
#[derive(Drop)]
struct Exhausted {
    device: Device,
}

impl Desk for Exhausted {
    ghost use Rattle.std.specs.Prelude.{[], None, false};
    ghost use Rattle.am_keeper.specs.Rows.{no_rows};

    ghost view = { λ d. record {
      origin = record { device = d.device; rows = no_rows; place = None };
      number = 0;
      sharing = record { id = []; desks = 1; handed = [] };
      seen = [];
    } };

    ghost waits = { false };

    fn call(&mut self, asked: DeskCall<'_>) -> Result<Shown, NoMemory> {
        drop(asked);
        Err(NoMemory)
    }
}

const QUERY: &[u8] =
    b"POST /v1/query HTTP/1.1\r\nAM-Key: k1\r\nContent-Length: 31\r\n\r\n{\"kind\":\"activity\",\"intent\":{}}";

/// The answer to a query at that desk.
pub fn refused_for_memory(alloc: Global) -> Result<MemorySink, Fail> {
    let device = read_device(alloc, EMPTY.as_bytes())
        .ok()
        .ok_or("the device is read")?;
    let mut desk = Exhausted { device };
    let none = List::new(Vec::new(alloc));
    let mut source = MemorySource::new(List::new(QUERY.to_vec(alloc)?), 4096, none);
    let mut sink = MemorySink::new(alloc, 4096, 4096, List::new(Vec::new(alloc)))?;
    let mut buffers = Buffers::new(alloc)?;
    let mut clock = StepClock::new(0, 1);
    let _served = serve_connection(
        alloc,
        &mut desk,
        &mut source,
        &mut sink,
        &mut clock,
        &mut buffers,
    );
    Ok(sink)
}
