//! The bytes of a connection that came and weren't read yet.
ghost use Rattle.std.specs.Prelude.{◌≡◌, ◌+◌, ◌≤◌, IfOk, length, vec_len};

use am_frames::frame::MAX_FRAME;
use am_frames::{Announced, announced_length};
use std::alloc::{AllocError, Global};
use std::io::{self, Read};
use std::mem::replace;

/// The bytes that a request takes first, and those that a connection keeps between requests.
const FIRST: usize = 1_024;

/// How many requests are looked for at once.
const MOST_FOUND: u32 = 64;

/// The bytes that came: first those that are open to be read, which are whole requests, then those of the next one.
#[derive(Drop)]
pub(crate) struct Incoming {
    alloc: Global,
    bytes: Vec<u8>,
    // Where the bytes begin that weren't read, those that aren't open, and the room behind them.
    start: usize,
    ready: usize,
    end: usize,
    // How long the request is that isn't open, once that is known.
    length: Option<usize>,
    // How many requests were opened since that was last asked.
    opened: u32,
    ghost start_fits: { start ≤ ready },
    ghost ready_fits: { ready ≤ end },
    ghost end_fits: { end ≤ vec_len bytes },
}

impl Incoming {
    /// No bytes.
    pub(crate) fn new(alloc: Global) -> Incoming {
        Incoming {
            alloc,
            bytes: Vec::new(alloc),
            start: 0,
            ready: 0,
            end: 0,
            length: None,
            opened: 0,
        }
    }

    /// Whether there are none.
    pub(crate) fn is_empty(&self) -> bool {
        self.start == self.end
    }

    /// Whether bytes are open: those of requests that are there whole, or all of them if a server answers without more.
    pub(crate) fn is_open(&mut self) -> bool {
        for _ in 0..MOST_FOUND {
            if !self.opens_next() {
                break;
            }
        }
        self.start < self.ready
    }

    // Opens the next request, and answers whether another one may be open too.
    fn opens_next(&mut self) -> bool {
        if self.ready == self.end {
            return false;
        }
        let found = match self.length {
            Some(length) => Announced::Known(length),
            None => announced_length(&self.bytes[self.ready..self.end]),
        };
        match found {
            Announced::Known(length) if length <= self.end - self.ready => {
                self.open_to(self.ready + length);
                true
            }
            Announced::Known(length) => {
                self.length = Some(length);
                false
            }
            Announced::Unknown => false,
            Announced::Refused => {
                self.open_to(self.end);
                false
            }
        }
    }

    // Opens the bytes up to a place, which are one more request.
    fn open_to(&mut self, place: usize)
        requires { (self.old.ready ≤ place) × (place ≤ self.old.end) }
    {
        self.ready = place;
        self.length = None;
        self.opened = self.opened.saturating_add(1);
    }

    /// How many requests were opened since this was last asked.
    pub(crate) fn take_opened(&mut self) -> u32 {
        replace(&mut self.opened, 0)
    }

    /// Moves open bytes into the front of a slice, or if none is open, any, and answers how many.
    pub(crate) fn give(&mut self, into: &mut [u8]) -> usize
        ensures { result ≤ length into.new }
    {
        if self.start == self.ready {
            self.ready = self.end;
            self.length = None;
        }
        let count = into.len().min(self.ready - self.start);
        let from = &self.bytes[self.start..self.start + count];
        into[..count].copy_from_slice(from);
        self.start += count;
        count
    }

    /// Reads once into the room behind the bytes.
    pub(crate) fn receive<S: Read>(&mut self, stream: &mut S) -> io::Result<usize> {
        self.make_room()?;
        let count = read_behind(stream, self.bytes.as_mut_slice(), self.end)?;
        self.end += count;
        Ok(count)
    }

    /// Whether there is room behind the bytes. After a read there is some only if all that had come was read.
    pub(crate) fn has_room(&self) -> bool {
        self.end < self.bytes.len()
    }

    // Moves the bytes to the front, and makes more room if the last read left none.
    fn make_room(&mut self) -> Result<(), AllocError> {
        let length = self.bytes.len();
        let has_room = self.has_room();
        to_front(self.bytes.as_mut_slice(), self.start, self.end);
        self.ready -= self.start;
        self.end -= self.start;
        self.start = 0;
        if !has_room {
            let wanted = length
                .saturating_mul(2)
                .max(FIRST)
                .min(MAX_FRAME)
                .max(length);
            self.bytes.reserve_exact(wanted - length)?;
            self.bytes.resize(wanted, 0)?;
        }
        Ok(())
    }

    /// Gives back the memory that a connection at rest doesn't keep.
    pub(crate) fn shrink(&mut self) {
        if self.start == self.end && self.bytes.len() > FIRST {
            *self = Incoming::new(self.alloc);
        }
    }
}

// Moves the bytes between two places to the front.
fn to_front(bytes: &mut [u8], start: usize, end: usize)
    requires order { start ≤ end }
    requires fits { end ≤ length bytes.old }
    ensures { length bytes.new ≡ length bytes.old }
{
    if start > 0 {
        bytes.copy_within(start..end, 0);
    }
}

// Reads once into the room behind a place.
fn read_behind<S: Read>(stream: &mut S, bytes: &mut [u8], end: usize) -> io::Result<usize>
    requires { end ≤ length bytes.old }
    ensures length { length bytes.new ≡ length bytes.old }
    ensures within { IfOk result (λ count. end + count ≤ length bytes.new) }
{
    stream.read(&mut bytes[end..])
}
