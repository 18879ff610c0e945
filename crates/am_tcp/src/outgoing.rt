//! The responses of a connection that weren't sent yet.
ghost use Rattle.std.specs.Prelude.{◌≡◌, ◌++◌, ◌≤◌, [], OnOk, IfOk, if◌then◌else◌, take};
ghost use Rattle.std.specs.Io.{WritesAtMost};
ghost use Rattle.std.specs.Io.KnownBytes.{Appends, append_known};

use crate::limits::Term;
use std::alloc::Global;
use std::io::{self, ErrorKind, Write};
use std::mem::replace;
use std::net::TcpStream;
use std::rt::Clock as Time;
use std::sync::Arc;

/// The most bytes that are kept, to be sent together.
const MOST_KEPT: usize = 65_536;

/// The room that they take first.
const FIRST_KEPT: usize = 8_192;

/// The responses of a connection. Each is sent at once, unless further requests are there whole: then it is kept, and
/// sent together with theirs.
#[derive(Drop)]
pub(crate) struct Outgoing {
    alloc: Global,
    // The bytes that are kept, in their order.
    kept: Vec<u8>,
    // How many requests are there whole to which no response was written.
    owed: u32,
    // Whether something was written since the last read.
    is_answered: bool,
}

impl Outgoing {
    /// No responses.
    pub(crate) fn new(alloc: Global) -> Outgoing {
        Outgoing {
            alloc,
            kept: Vec::new(alloc),
            owed: 0,
            is_answered: false,
        }
    }

    /// Expects responses to so many more requests, and answers whether something was written since the last read.
    pub(crate) fn expect(&mut self, requests: u32) -> bool
        ensures answered { result ≡ self.old.is_answered }
        ensures kept { self.new.kept.items ≡ self.old.kept.items }
    {
        self.owed = self.owed.saturating_add(requests);
        replace(&mut self.is_answered, false)
    }

    // Keeps some more bytes, if there is room and memory for them.
    fn keep(&mut self, more: &[u8]) -> bool
        ensures kept { self.new.kept.items ≡ (if result then self.old.kept.items ++ more.now else self.old.kept.items) }
        ensures owed { self.new.owed ≡ self.old.owed }
    {
        if self.kept.len().saturating_add(more.len()) > MOST_KEPT {
            return false;
        }
        if self.kept.is_empty() {
            let _ = self.kept.reserve(FIRST_KEPT);
        }
        self.kept.extend_from_slice(more).is_ok()
    }

    /// Sends what is kept. If that fails, the connection is to end.
    pub(crate) fn send<W: Write>(&mut self, way: &mut W) -> io::Result<()>
        ensures sent { OnOk result (Appends (W.contents way.old) (W.contents way.new) self.old.kept.items) }
        ensures none { self.new.kept.items ≡ [] }
        ensures owed { self.new.owed ≡ self.old.owed }
    {
        let sent = way.write_all(self.kept.as_slice());
        self.kept = Vec::new(self.alloc);
        sent
    }

    /// Takes some bytes of a response, which ends with a write that takes all that it is given. Either they are kept,
    /// or they are sent behind what was kept before. Nothing is kept behind the last response that is expected.
    pub(crate) fn write<W: Write>(&mut self, way: &mut W, from: &[u8]) -> io::Result<usize>
        ensures within { WritesAtMost result from.now }
        ensures taken { IfOk result (λ count.
            Appends (append_known (W.contents way.old) self.old.kept.items)
            (append_known (W.contents way.new) self.new.kept.items) (take count from.now)) }
        ensures last { self.old.owed ≤ 1 → OnOk result (self.new.kept.items ≡ []) }
    {
        self.is_answered = true;
        let is_last = self.owed <= 1;
        let is_alone = is_last && self.kept.is_empty();
        let count = if is_alone || !self.keep(from) {
            self.send(way)?;
            way.write(from)?
        } else {
            from.len()
        };
        if is_last {
            self.send(way)?;
        }
        if count == from.len() {
            self.owed = self.owed.saturating_sub(1);
        }
        Ok(count)
    }
}

/// The way to a peer. A write waits until there is room, as long as the peer may take for what it is given.
#[derive(Drop)]
pub(crate) struct Way<R> {
    pub(crate) rt: R,
    pub(crate) stream: Arc<TcpStream>,
    // What is left for what is being taken.
    pub(crate) term: Term,
}

impl<R: Time> Way<R> {
    // Writes what there is room for, or waits for some.
    fn write_some(&mut self, from: &[u8]) -> io::Result<usize>
        ensures { WritesAtMost result from.now }
    {
        if self.term.left(&self.rt)?.is_zero() {
            return Err(io::Error::from(ErrorKind::TimedOut));
        }
        let mut stream = &*self.stream;
        match stream.write(from) {
            Err(error) if error.kind() == ErrorKind::WouldBlock => {}
            done => return done,
        }
        self.term.begin(&self.rt)?;
        stream.set_nonblocking(false)?;
        stream.set_write_timeout(Some(self.term.left(&self.rt)?))?;
        let done = stream.write(from);
        stream.set_nonblocking(true)?;
        done
    }
}

impl<R: Time> Write for Way<R> {
    // A write that takes all that it is given ends the term.
    fn write(&mut self, from: &[u8]) -> io::Result<usize> {
        let count = self.write_some(from)?;
        if count == from.len() {
            self.term.stop();
        } else {
            self.term.begin(&self.rt)?;
        }
        Ok(count)
    }

    fn flush(&mut self) -> io::Result<()> {
        Ok(())
    }
}
