//! Runs of the program over files, an input, sinks, a network and a store in memory.
#![tactic(auto)]

ghost use Rattle.std.specs.Prelude.{◌≡◌, ◌<◌, [], IfOk};
ghost use Rattle.am_network.specs.Memory.{ArePlans};

use am_keeper::{MemoryStore, PackageRow, Row, RowsBuilder, Store, StoredRows};
use am_network::{Acceptor, GatePlan, MemoryNetwork, Network};
use am_outside::{FileBytes, MemoryFiles, MemorySink, MemorySource, StepClock};
use am_shell::run;
use am_trials_spelling::push_frame;
use am_trials_words::texts;
use am_types::{List, NoMemory, Text, drop_parts};
use std::alloc::Global;
use std::str;
use std::sync::Wait;
use std::test::Fail;
use std::thread::Threads;

/// What a run of the program takes from the runtime.
pub trait Runtime: Threads + Wait + Clone + Drop + Send + Sync {}

impl<R: Threads + Wait + Clone + Drop + Send + Sync> Runtime for R {}

/// How the outside behaves: the most bytes that a read and a write take, which call of which object fails, or of
/// which objects, between `+`, the first moment that the clock tells, and how much later each further one is.
#[derive(Clone, Copy)]
pub struct Outside {
    pub most: usize,
    pub failing: &'static str,
    pub call: u32,
    pub at: u64,
    pub step: u64,
}

/// Nothing fails, pieces are of seven bytes, and the moments are 0, 1, 2 and so on.
pub const QUIET: Outside = Outside {
    most: 7,
    failing: "",
    call: 1,
    at: 0,
    step: 1,
};

/// What a run begins with: its words, the device file `d`, and what comes from its input.
#[derive(Drop)]
pub struct Asked<'a> {
    words: &'a str,
    device: &'a str,
    input: &'a [u8],
}

impl<'a> Asked<'a> {
    pub fn new(words: &'a str, device: &'a str, input: &'a [u8]) -> Asked<'a> {
        Asked {
            words,
            device,
            input,
        }
    }
}

/// What a run leaves: its status, its output and its errors.
pub struct Left {
    pub status: u8,
    pub output: MemorySink,
    pub errors: MemorySink,
}

impl Drop for Left {
    fn drop(self) {
        drop_parts!(self, Left: status output errors);
    }
}

impl Left {
    /// Whether the run ended with this status, this output and these errors.
    pub fn is(&self, status: u8, output: &[u8], errors: &[u8]) -> bool {
        self.status == status && self.output.taken() == output && self.errors.taken() == errors
    }

    /// The output, as a text.
    pub fn text(&self) -> Result<&str, Fail> {
        Ok(str::from_utf8(self.output.taken()).ok().ok_or("a text")?)
    }
}

/// The number of the failing call, if that object is to fail.
fn failing(alloc: Global, object: &str, outside: &Outside) -> Result<List<u32>, NoMemory> {
    let mut calls = Vec::new(alloc);
    if outside.failing.split('+').any(|name| name == object) {
        calls.push(outside.call)?;
    }
    Ok(List::new(calls))
}

/// The file `d`.
fn shelf(alloc: Global, device: &str, outside: &Outside) -> Result<MemoryFiles, NoMemory> {
    let name = Text::of(alloc, "d")?;
    let bytes = List::new(device.as_bytes().to_vec(alloc)?);
    let calls = failing(alloc, "files", outside)?;
    let mut files = Vec::new(alloc);
    files.push(FileBytes { name, bytes })?;
    Ok(MemoryFiles::new(alloc, List::new(files), calls))
}

/// A network of these gates.
pub fn network_of(
    alloc: Global,
    gates: List<GatePlan>,
    outside: &Outside,
) -> Result<MemoryNetwork, NoMemory>
    requires { ArePlans gates }
{
    let calls = failing(alloc, "network", outside)?;
    Ok(MemoryNetwork::new(alloc, gates, calls))
}

/// What comes from the input.
pub fn source(alloc: Global, input: &[u8], outside: &Outside) -> Result<MemorySource, NoMemory>
    requires { 0 < outside.now.most }
    ensures { IfOk result (λ made. (made.given ≡ []) × (made.faults ≡ 0)) }
{
    let calls = failing(alloc, "input", outside)?;
    Ok(MemorySource::new(List::new(input.to_vec(alloc)?), outside.most, calls))
}

/// What the object takes, which has room for so many bytes.
pub fn sink(
    alloc: Global,
    object: &str,
    room: usize,
    outside: &Outside,
) -> Result<MemorySink, NoMemory>
    requires { 0 < outside.now.most }
    ensures { IfOk result (λ made. (made.taken ≡ []) × (made.faults ≡ 0)) }
{
    let calls = failing(alloc, object, outside)?;
    Ok(MemorySink::new(alloc, room, outside.most, calls)?)
}

/// The row of a package without components.
fn package_row(alloc: Global) -> Result<Row, NoMemory> {
    Ok(Row::Package(PackageRow {
        uid: 10_000,
        name: Text::of(alloc, "com.a")?,
        key: Text::of(alloc, "ka")?,
        text: Text::of(alloc, "package = 'com.a'")?,
        gone: false,
    }))
}

/// A store with a package at the place `p`.
pub fn store(alloc: Global, outside: &Outside) -> Result<MemoryStore, NoMemory> {
    let mut rows = RowsBuilder::new(alloc);
    rows.put(package_row(alloc)?)?;
    let path = Text::of(alloc, "p")?;
    let calls = failing(alloc, "store", outside)?;
    let mut places = Vec::new(alloc);
    places.push(StoredRows {
        path,
        rows: rows.finish(),
    })?;
    Ok(MemoryStore::new(alloc, List::new(places), calls))
}

/// Runs what is asked over a network without links, and a store with a package at the place `p`.
pub fn try_run(
    rt: &impl Runtime,
    alloc: Global,
    asked: &Asked<'_>,
    outside: &Outside,
) -> Result<Left, NoMemory>
    requires { 0 < outside.now.most }
{
    let mut store = store(alloc, outside)?;
    run_over(rt, alloc, asked, outside, &mut store)
}

/// A session over the device with this input.
pub fn session_over(
    rt: &impl Runtime,
    alloc: Global,
    device: &str,
    input: &[u8],
    outside: &Outside,
) -> Result<Left, NoMemory>
    requires { 0 < outside.now.most }
{
    let asked = Asked::new("session --device d", device, input);
    try_run(rt, alloc, &asked, outside)
}

/// Runs what is asked over a network without links, and the store.
pub fn run_over<T: Store>(
    rt: &impl Runtime,
    alloc: Global,
    asked: &Asked<'_>,
    outside: &Outside,
    store: &mut T,
) -> Result<Left, NoMemory>
where
    T::Kept: Send,
    requires { 0 < outside.now.most }
{
    let mut network = network_of(alloc, List::new(Vec::new(alloc)), outside)?;
    run_on(rt, alloc, asked, outside, store, &mut network)
}

/// Runs the words over the device file `d`, the call, a network without links, and the store.
pub fn asked_over(
    rt: &impl Runtime,
    alloc: Global,
    words: &str,
    device: &str,
    call: &str,
    store: &mut MemoryStore,
) -> Result<Left, Fail> {
    let mut input = String::new(alloc);
    push_frame(&mut input, call)?;
    let asked = Asked::new(words, device, input.as_bytes());
    Ok(run_over(rt, alloc, &asked, &QUIET, store)?)
}

/// Runs what is asked over the store and the network.
pub fn run_on<R: Runtime, N: Network, T: Store>(
    rt: &R,
    alloc: Global,
    asked: &Asked<'_>,
    outside: &Outside,
    store: &mut T,
    network: &mut N,
) -> Result<Left, NoMemory>
where
    T::Kept: Send,
    requires { 0 < outside.now.most }
{
    let words = texts(alloc, asked.words)?;
    let mut files = shelf(alloc, asked.device, outside)?;
    let room = asked.input.len().saturating_mul(8).saturating_add(65_536);
    let mut output = sink(alloc, "output", room, outside)?;
    let mut errors = sink(alloc, "errors", 4096, outside)?;
    let mut input = source(alloc, asked.input, outside)?;
    let mut clock = StepClock::new(outside.at, outside.step);
    let status = run(
        rt,
        alloc,
        words.as_slice(),
        &mut files,
        &mut input,
        &mut output,
        &mut errors,
        network,
        store,
        &mut clock,
    );
    Ok(Left {
        status,
        output,
        errors,
    })
}
