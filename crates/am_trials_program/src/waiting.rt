//! Two workers at the same time: the frame that comes to one is whole only once the other has answered its own.
ghost use Rattle.std.specs.Prelude.{◌≡◌, ◌+◌, ◌<◌, ◌≤◌, [], All, None, length, vec_len, vec_capacity};
ghost use Rattle.std.specs.Io.{ReadsAtMost};
ghost use Rattle.am_network.specs.Links.{IsNewGate};

use crate::servings::try_head;
use am_network::{Acceptor, ListenFail, Network, Progress};
use am_outside::{Failed, MemorySink, MemorySource, Sink, Source};
use am_trials_runs::{QUIET, Runtime, sink, source, store};
use std::alloc::Global;
use std::collections::VecDeque;
use std::process::Abort;
use std::sync::Arc;
use std::sync::atomic::{AtomicBool, Ordering};
use std::test::Fail;
use std::{str, thread};

/// How often a waiting link looks whether the other one is answered, before its read fails.
const TURNS: u32 = 100_000_000;

const HEAD: &[u8] = b"POST /v1/tick HTTP/1.1\r\nAM-Key: sys\r\nContent-Length: 2\r\n\r\n";

const BODY: &[u8] = b"{}";

/// A response is whole if it ends so.
const END: &[u8] = b"\r\n\r\n{}";

/// A link that is to come: a frame in two pieces, and where the response goes.
#[derive(Drop)]
struct Link {
    head: MemorySource,
    body: MemorySource,
    sink: MemorySink,
    /// What has to be true before the body comes.
    awaited: Option<Arc<AtomicBool>>,
    /// What becomes true once the response is whole.
    told: Option<Arc<AtomicBool>>,
}

/// What comes over a link. It tells nothing of it.
#[derive(Drop)]
struct Reader {
    head: MemorySource,
    body: MemorySource,
    awaited: Option<Arc<AtomicBool>>,
    faults: u64,
}

/// What goes over a link. It tells nothing of it.
#[derive(Drop)]
struct Writer {
    sink: MemorySink,
    told: Option<Arc<AtomicBool>>,
    faults: u64,
}

/// Whether it becomes true soon enough.
fn comes_true(awaited: &AtomicBool) -> bool {
    for _ in 0..TURNS {
        if awaited.load(Ordering::SeqCst) {
            return true;
        }
        thread::yield_now();
    }
    false
}

impl Reader {
    /// Whether the body comes.
    fn goes_on(&self) -> bool {
        match &self.awaited {
            Some(awaited) => comes_true(awaited),
            None => true,
        }
    }

    /// One read of the head, or of the body after it.
    fn read_next(&mut self, into: &mut [u8]) -> Result<usize, Failed>
        requires { 0 < length into.old }
        ensures within { ReadsAtMost result into.new }
        ensures faults { self.new.faults ≡ self.old.faults }
    {
        let count = self.head.read(into)?;
        if count > 0 {
            return Ok(count);
        }
        if !self.goes_on() {
            return Err(Failed);
        }
        self.body.read(into)
    }
}

impl Source for Reader {
    ghost use Rattle.std.specs.Prelude.{None};

    ghost given = { λ r. None };

    ghost left = { λ r. None };

    ghost faults = { λ r. r.faults };

    ghost mark = { λ r. 0 };

    fn read(&mut self, into: &mut [u8]) -> Result<usize, Failed> {
        match self.read_next(into) {
            Ok(count) => Ok(count),
            Err(_) => {
                self.faults = self.faults.saturating_add(1);
                Err(Failed)
            }
        }
    }
}

impl Writer {
    /// Tells of the response if it is whole.
    fn tell(&self) {
        if let Some(told) = &self.told
            && self.sink.taken().ends_with(END)
        {
            told.store(true, Ordering::SeqCst);
        }
    }
}

impl Sink for Writer {
    ghost use Rattle.std.specs.Prelude.{None};

    ghost taken = { λ w. None };

    ghost faults = { λ w. w.faults };

    ghost mark = { λ w. 0 };

    fn write(&mut self, from: &[u8]) -> Result<usize, Failed> {
        match self.sink.write(from) {
            Ok(count) => {
                self.tell();
                Ok(count)
            }
            Err(_) => {
                self.faults = self.faults.saturating_add(1);
                Err(Failed)
            }
        }
    }
}

/// The two ends of a link.
fn ends_of(link: Link) -> (Reader, Writer)
    ensures { (result.0.faults ≡ 0) × (result.1.faults ≡ 0) }
{
    let Link {
        head,
        body,
        sink,
        awaited,
        told,
    } = link;
    let reader = Reader {
        head,
        body,
        awaited,
        faults: 0,
    };
    let writer = Writer {
        sink,
        told,
        faults: 0,
    };
    (reader, writer)
}

/// A gate of one link, or of none. It tells nothing of it.
#[derive(Drop)]
struct Gate {
    coming: Option<Link>,
    ended: Option<Writer>,
    faults: u64,
}

impl Acceptor for Gate {
    ghost use Rattle.std.specs.Prelude.{None};

    type Reader = Reader;

    type Writer = Writer;

    ghost links = { λ g. None };

    ghost faults = { λ g. g.faults };

    fn accept(&mut self) -> Result<Option<(Reader, Writer)>, Failed> {
        match self.coming.take() {
            Some(link) => Ok(Some(ends_of(link))),
            None => Ok(None),
        }
    }

    fn finish(&mut self, reader: Reader, writer: Writer) {
        drop(reader);
        self.ended = Some(writer);
    }

    fn next_link(
        &mut self,
        takes_new: bool,
    ) -> Result<Option<(Reader, Writer, Option<Progress>)>, Failed> {
        if !takes_new {
            return Ok(None);
        }
        match self.coming.take() {
            Some(link) => {
                let (reader, writer) = ends_of(link);
                Ok(Some((reader, writer, None)))
            }
            None => Ok(None),
        }
    }

    fn park(&mut self, reader: Reader, writer: Writer, _progress: Progress) -> bool {
        drop(reader);
        self.ended = Some(writer);
        self.faults = self.faults.saturating_add(1);
        false
    }
}

/// A network whose gates have a link each. It tells nothing of them.
#[derive(Drop)]
struct Pair {
    alloc: Global,
    coming: VecDeque<Link>,
    released: Vec<Gate>,
    listens: u64,
    gate_faults: u64,
}

/// Makes so many gates.
fn gates_of(coming: &mut VecDeque<Link>, gates: u32, mut made: Vec<Gate>) -> Vec<Gate>
    requires empty { made.items ≡ [] }
    requires room { gates ≤ vec_capacity made }
    ensures count { length result.items ≡ gates }
    ensures new { All (λ (g : Gate). IsNewGate (record { links = None; faults = g.faults })) result.items }
{
    for _number in 0..gates {
        made.push_reserved(Gate {
            coming: coming.pop_front(),
            ended: None,
            faults: 0,
        });
    }
    made
}

impl Network for Pair {
    type Gate = Gate;

    ghost listens = { λ n. n.listens };

    ghost faults = { λ n. 0 };

    ghost gate_faults = { λ n. n.gate_faults };

    fn listen(&mut self, _port: u16, gates: u32) -> Result<Vec<Gate>, ListenFail> {
        self.listens = self.listens.saturating_add(1);
        let room = Vec::with_capacity(self.alloc, gates as usize)?;
        Ok(gates_of(&mut self.coming, gates, room))
    }

    fn release(&mut self, gate: Gate) {
        self.gate_faults = self.gate_faults.saturating_add(gate.faults);
        drop(self.released.push(gate));
    }
}

/// A link that waits for the other one, or the other one.
fn link_of(alloc: Global, waits: bool, answered: &Arc<AtomicBool>) -> Result<Link, Fail> {
    let shared = Some(Arc::try_clone(answered)?);
    let (awaited, told) = if waits {
        (shared, None)
    } else {
        (None, shared)
    };
    Ok(Link {
        head: source(alloc, HEAD, &QUIET)?,
        body: source(alloc, BODY, &QUIET)?,
        sink: sink(alloc, "output", 4096, &QUIET)?,
        awaited,
        told,
    })
}

/// Two links, of which the one with this number waits for the other one.
fn pair_of(alloc: Global, waiting: u32) -> Result<Pair, Fail> {
    let answered = Arc::new(alloc, AtomicBool::new(false))?;
    let mut coming = VecDeque::new(alloc);
    for number in 0..2 {
        coming.push_back(link_of(alloc, number == waiting, &answered)?)?;
    }
    Ok(Pair {
        alloc,
        coming,
        released: Vec::new(alloc),
        listens: 0,
        gate_faults: 0,
    })
}

/// The link of the gate was answered so.
fn try_gate(rt: &(impl Runtime + Abort), gate: &Gate, place: &str) -> Result<(), Fail> {
    let writer = gate.ended.as_ref().ok_or("a link")?;
    let taken = str::from_utf8(writer.sink.taken()).ok().ok_or("a text")?;
    assert!(rt; taken.starts_with("HTTP/1.1 200 OK\r\n"), "{taken}");
    assert!(rt; taken.contains(place), "{taken}");
    Ok(())
}

/// Both links are answered, the one with this number after the other one.
fn try_waiting(rt: &(impl Runtime + Abort), alloc: Global, waiting: u32) -> Result<(), Fail> {
    let mut network = pair_of(alloc, waiting)?;
    let mut store = store(alloc, &QUIET)?;
    let head =
        r"empty serve --device d --port 1 --workers 2 --connections 1 | 0 - | history 2 served 2\n";
    try_head(rt, alloc, &mut store, &mut network, head)?;
    try_places(rt, network.released.as_slice(), waiting)
}

/// The places of the two answers.
fn try_places(rt: &(impl Runtime + Abort), gates: &[Gate], waiting: u32) -> Result<(), Fail> {
    let mut number: u32 = 0;
    for gate in gates {
        let place = if number == waiting {
            "AM-At: 1\r\n"
        } else {
            "AM-At: 0\r\n"
        };
        try_gate(rt, gate, place)?;
        number = number.wrapping_add(1);
    }
    assert_eq!(rt; number, 2);
    Ok(())
}

#[test]
fn serves_both_at_once(rt: HostRuntime) -> Result<(), Fail> {
    try_waiting(&rt, rt.alloc(), 0)?;
    try_waiting(&rt, rt.alloc(), 1)
}
