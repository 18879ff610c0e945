//! The two ends of a connection.
ghost use Rattle.std.specs.Prelude.{◌≡◌, ◌≤◌, IfOk};
ghost use Rattle.std.specs.Io.{ReadsAtMost};

use crate::incoming::Incoming;
use crate::limits::{Limits, Term};
use crate::outgoing::{Outgoing, Way};
use am_host::Counted;
use am_outside::{Failed, Source};
use std::alloc::Global;
use std::io::{self, ErrorKind, Read, Write};
use std::marker::Copy;
use std::mem::replace;
use std::net::{Shutdown, TcpStream};
use std::os::fd::{AsRawFd, RawFd};
use std::rt::Clock as Time;
use std::sync::{Arc, Mutex, Wait};
use std::time::{Duration, Instant};

/// How many pieces are read at once of what still comes at a connection's end.
const MOST_PIECES: u32 = 64;

/// What goes over a connection. A limit that has passed is a fault, and so is a write that takes nothing. A write to a
/// peer that is gone fails, and raises no signal.
pub type TcpWriter<R> = Counted<Responses<R>>;

// What is known of the peer.
#[derive(Clone, Copy)]
enum Peer {
    Here,
    // It sends no more.
    Gone,
    // It sent nothing for as long as a connection may rest.
    Rested,
    // The connection broke, or the time for a request is over.
    Lost,
}

// The requests of a connection.
#[derive(Drop)]
struct Requests<R> {
    way: Way<R>,
    outgoing: Arc<Mutex<Outgoing>>,
    incoming: Incoming,
    // What is left for the request that is to come, or is coming.
    term: Term,
    peer: Peer,
    // Whether all that had come was received. What comes later is reported.
    has_all: bool,
    // Whether the system reported the peer's end or a fault, after which it reports no more.
    is_ending: bool,
}

/// What comes over a connection. A limit that has passed is a fault. It is ready once the next request is there whole,
/// or a server answers it without more of it, or no more is to come. Until then its bytes are kept here.
#[derive(Drop)]
pub struct TcpReader<R> {
    requests: Requests<R>,
    /// How many reads failed. It stays at the greatest 64-bit number.
    pub faults: u64,
    waits: u64,
}

/// The responses of a connection, to be written. A byte that is kept was taken, as one is that the system holds for
/// the peer. What is kept is sent by the next write that keeps nothing, by a flush, before a read that would wait, and
/// at the connection's end. If that fails, the write fails, or the next read.
#[derive(Drop)]
pub struct Responses<R> {
    way: Way<R>,
    outgoing: Arc<Mutex<Outgoing>>,
}

// Reads what is there, or waits for it for so long.
fn read_within(mut stream: &TcpStream, into: &mut [u8], left: Duration) -> io::Result<usize>
    ensures { ReadsAtMost result into.new }
{
    match stream.read(into) {
        Err(error) if error.kind() == ErrorKind::WouldBlock => {}
        done => return done,
    }
    stream.set_nonblocking(false)?;
    stream.set_read_timeout(Some(left))?;
    let done = stream.read(into);
    stream.set_nonblocking(true)?;
    done
}

impl<R: Time + Wait> Requests<R> {
    // Lets the next request have its whole time, if a response was written since the last read. Unless a request is
    // there whole, the responses that are kept are sent.
    fn turn(&mut self) -> io::Result<()> {
        let is_open = self.incoming.is_open();
        let mut outgoing = self.outgoing.lock(&self.way.rt);
        if outgoing.expect(self.incoming.take_opened()) {
            self.term.stop();
        }
        if is_open {
            return Ok(());
        }
        outgoing.send(&mut self.way)
    }

    // Receives what is there, and answers whether something was, or the end.
    fn receive(&mut self) -> io::Result<bool> {
        let mut stream = &*self.way.stream;
        match self.incoming.receive(&mut stream) {
            Ok(0) => self.peer = Peer::Gone,
            Ok(_) => {
                self.has_all = self.incoming.has_room() && !self.is_ending;
                self.term.begin(&self.way.rt)?;
            }
            Err(error) if error.kind() == ErrorKind::WouldBlock => return Ok(false),
            Err(error) if error.kind() == ErrorKind::Interrupted => {}
            Err(error) => return Err(error),
        }
        Ok(true)
    }

    // Whether the reads of the next request need not wait, once what is there was received. If all was received
    // already, the system isn't asked the first time.
    fn is_ready(&mut self) -> bool {
        if self.turn().is_err() {
            self.peer = Peer::Lost;
        }
        for _ in 0..u64::MAX {
            if self.incoming.is_open() {
                return true;
            }
            match self.peer {
                Peer::Here if replace(&mut self.has_all, false) => return false,
                Peer::Here => {}
                Peer::Gone | Peer::Rested | Peer::Lost => return true,
            }
            match self.receive() {
                Ok(true) => {}
                Ok(false) => return false,
                Err(_) => self.peer = Peer::Lost,
            }
        }
        true
    }

    // A read behind a write begins the next request.
    fn read(&mut self, into: &mut [u8]) -> io::Result<usize>
        ensures { ReadsAtMost result into.new }
    {
        self.turn()?;
        if !self.incoming.is_empty() {
            return Ok(self.incoming.give(into));
        }
        match self.peer {
            Peer::Here => {}
            Peer::Gone | Peer::Rested => return Ok(0),
            Peer::Lost => return Err(io::Error::from(ErrorKind::TimedOut)),
        }
        let left = self.term.left(&self.way.rt)?;
        if left.is_zero() {
            return Err(io::Error::from(ErrorKind::TimedOut));
        }
        let count = read_within(&self.way.stream, into, left)?;
        self.term.begin(&self.way.rt)?;
        Ok(count)
    }

    fn read_some(&mut self, into: &mut [u8]) -> io::Result<usize>
        ensures { ReadsAtMost result into.new }
    {
        for _ in 0..u64::MAX {
            match self.read(into) {
                Err(error) if error.kind() == ErrorKind::Interrupted => {}
                done => return done,
            }
        }
        Err(io::Error::from(ErrorKind::Interrupted))
    }
}

impl<R: Time + Wait> Source for TcpReader<R> {
    ghost use Rattle.std.specs.Prelude.{None};

    ghost given = { λ r. None };

    ghost left = { λ r. None };

    ghost faults = { λ r. r.faults };

    ghost mark = { λ r. 0 };

    ghost waits = { λ r. r.waits };

    fn is_ready(&mut self) -> bool {
        if self.requests.is_ready() {
            return true;
        }
        self.waits = self.waits.saturating_add(1);
        false
    }

    fn read(&mut self, into: &mut [u8]) -> Result<usize, Failed> {
        match self.requests.read_some(into) {
            Ok(count) => Ok(count),
            Err(_) => {
                self.faults = self.faults.saturating_add(1);
                Err(Failed)
            }
        }
    }
}

impl<R: Time + Wait> TcpReader<R> {
    /// Whether the next request is there whole, or no more of it is to come.
    pub(crate) fn is_whole(&mut self) -> bool {
        self.requests.is_ready()
    }

    /// Sends the responses that are kept, tells the peer the end, and answers whether it may still send something. A
    /// connection that is closed while bytes lie unread is reset, and then the peer may lose the last response.
    pub(crate) fn leave(&mut self) -> bool {
        let way = &mut self.requests.way;
        if self.requests.outgoing.lock(&way.rt).send(way).is_err() {
            return false;
        }
        match self.requests.peer {
            Peer::Gone => false,
            _ => way.stream.shutdown(Shutdown::Write).is_ok() && !self.is_drained(),
        }
    }
}

impl<R> TcpReader<R> {
    /// The descriptor of the connection.
    pub(crate) fn descriptor(&self) -> RawFd {
        self.requests.way.stream.as_raw_fd()
    }

    /// Since when a request is to come or is coming, if one is.
    pub(crate) fn since(&self) -> Option<Instant> {
        self.requests.term.since()
    }

    /// Gives back the memory that a connection at rest doesn't keep.
    pub(crate) fn shrink(&mut self) {
        self.requests.incoming.shrink();
    }

    /// Lets the connection end, whose time is over: a request that isn't there whole fails, and else none is to come.
    pub(crate) fn give_up(&mut self) {
        self.requests.peer = match self.requests.term.since() {
            Some(_) => Peer::Lost,
            None => Peer::Rested,
        };
    }

    /// Heeds that the system reported something, and whether it was the peer's end or a fault.
    pub(crate) fn heed(&mut self, is_ending: bool) {
        self.requests.is_ending |= is_ending;
        // What was reported isn't reported again, so the next look has to ask for it.
        self.requests.has_all = false;
    }

    /// Reads what came behind the end, and drops it. Answers whether no more is to come.
    pub(crate) fn is_drained(&self) -> bool {
        let mut stream = &*self.requests.way.stream;
        let mut piece = [0u8; 4096];
        for _ in 0..MOST_PIECES {
            match stream.read(&mut piece) {
                Ok(0) => return true,
                Ok(_) => {}
                Err(error) => return error.kind() != ErrorKind::WouldBlock,
            }
        }
        false
    }
}

impl<R: Time + Wait> Write for Responses<R> {
    fn write(&mut self, from: &[u8]) -> io::Result<usize> {
        let mut outgoing = self.outgoing.lock(&self.way.rt);
        outgoing.write(&mut self.way, from)
    }

    fn flush(&mut self) -> io::Result<()> {
        let mut outgoing = self.outgoing.lock(&self.way.rt);
        outgoing.send(&mut self.way)
    }
}

/// The two ends of a connection, which is accepted now. A send isn't held back by the system.
pub(crate) fn open<R: Time + Copy + Drop>(
    rt: R,
    alloc: Global,
    limits: &Limits,
    stream: TcpStream,
) -> io::Result<(TcpReader<R>, TcpWriter<R>)>
    ensures { IfOk result (λ link. (link.0.faults ≡ 0) × (link.1.faults ≡ 0)) }
{
    stream.set_nodelay(true)?;
    stream.set_nonblocking(true)?;
    let mut term = Term::new(limits.request);
    term.begin(&rt)?;
    let way = Way {
        rt,
        stream: Arc::new(alloc, stream)?,
        term: Term::new(limits.response),
    };
    let outgoing = Arc::new(alloc, Mutex::new(Outgoing::new(alloc)))?;
    let responses = Responses {
        way: Way {
            rt,
            stream: Arc::try_clone(&way.stream)?,
            term: Term::new(limits.response),
        },
        outgoing: Arc::try_clone(&outgoing)?,
    };
    let requests = Requests {
        way,
        outgoing,
        incoming: Incoming::new(alloc),
        term,
        peer: Peer::Here,
        has_all: false,
        is_ending: false,
    };
    let reader = TcpReader {
        requests,
        faults: 0,
        waits: 0,
    };
    Ok((reader, Counted::new(responses)))
}
