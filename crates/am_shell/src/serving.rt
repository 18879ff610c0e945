//! A device that many workers serve over a network.
ghost use Rattle.std.specs.Prelude.{◌≤◌, OnErr, decimal};
ghost use Rattle.am_outside.specs.Counts.{HasRisen};
ghost use Rattle.am_model.specs.Sound.{IsSound};
ghost use Rattle.am_http.specs.Sending.{Sends};
ghost use Rattle.am_words.specs.Ranges.{IsServingInRange};
ghost use Rattle.am_console.specs.Files.{shelf_of};
ghost use Rattle.am_console.specs.Telling.{voices_of};
ghost use Rattle.am_shell.specs.Servings.{Happens, RunsServing, ServesOr, TellsDone, done_line};
ghost use Rattle.am_shell.specs.World.{World, store_of, with_voices};
ghost use Rattle.am_workers.specs.Serving.{network_of};

use crate::clocks::clock_of;
use crate::device::read_device_file;
use crate::kept::{hand_back, open_manager};
use crate::undone::Undone;
use am_console::{Setback, tell};
use am_http::write_all;
use am_keeper::Store;
use am_laws_kept::kept_is_found;
use am_network::{ListenFail, Network};
use am_outside::{Clock, Failed, Files, Sink};
use am_types::Device;
use am_words::ServingWords;
use am_workers::{Worked, serve};
use itoa::Buffer;
use std::alloc::Global;
use std::hash::RandomState;
use std::sync::Wait;
use std::thread::Threads;

/// What is printed of a serving that ended.
#[derive(Clone, Copy, Debug, PartialEq, Eq)]
pub struct Done {
    /// How many entries the history has.
    pub history: u64,
    /// What the workers did.
    pub totals: Worked,
}

/// Runs the serving that is asked for: its workers serve the device over the network, beginning with the rows that the
/// store keeps at the place of the words, and its keeper is handed back to the store at the end. Its moments are the
/// one that the words ask for, if they do, otherwise those of the clock that is handed in. Prints how long the history
/// is and how many links were served. Answers the status, whose line it writes on the errors. When memory ran out or
/// the network didn't listen, no link was handed out.
pub fn run_serving<R, F: Files, W: Sink, E: Sink, N: Network, T: Store, C: Clock>(
    rt: &R,
    alloc: Global,
    drawn: Option<RandomState>,
    asked: ServingWords,
    files: &mut F,
    output: &mut W,
    errors: &mut E,
    network: &mut N,
    store: &mut T,
    clock: &C,
) -> u8
where
    R: Threads + Wait + Clone + Drop + Send + Sync,
    T::Kept: Send,
    requires range { IsServingInRange asked }
    ensures { (before after : World) → RunsServing asked
        (record (with_voices before (voices_of W.Sink E.Sink output.old errors.old)) {
          files = shelf_of F.Files files.old;
          store = store_of T.Store store.old;
          network = network_of N.Network network.old;
          clock = C.moments clock.now;
        })
        (record (with_voices after (voices_of W.Sink E.Sink output.new errors.new)) {
          files = shelf_of F.Files files.new;
          store = store_of T.Store store.new;
          network = network_of N.Network network.new;
        })
        result }
{
    match open_serving(rt, alloc, drawn, asked, files, network, store, clock) {
        Ok(done) => tell_done(done, output, errors),
        Err(why) => tell(why.line(), why.status(), errors),
    }
}

// All except what is printed.
fn open_serving<R, F: Files, N: Network, T: Store, C: Clock>(
    rt: &R,
    alloc: Global,
    drawn: Option<RandomState>,
    asked: ServingWords,
    files: &mut F,
    network: &mut N,
    store: &mut T,
    clock: &C,
) -> Result<Done, Undone>
where
    R: Threads + Wait + Clone + Drop + Send + Sync,
    T::Kept: Send,
    requires range { IsServingInRange asked }
    ensures { (before after : World) → Happens result asked
        (record before {
          files = shelf_of F.Files files.old;
          store = store_of T.Store store.old;
          network = network_of N.Network network.old;
          clock = C.moments clock.now;
        })
        (record after {
          files = shelf_of F.Files files.new;
          store = store_of T.Store store.new;
          network = network_of N.Network network.new;
        }) }
{
    let device = read_device_file(alloc, files, &asked.device)?;
    serve_device(rt, alloc, drawn, device, asked, network, store, clock)
}

// Serves a sound device as is asked for, and answers what is to be printed, or why the serving didn't begin.
fn serve_device<R, N: Network, T: Store, C: Clock>(
    rt: &R,
    alloc: Global,
    drawn: Option<RandomState>,
    device: Device,
    asked: ServingWords,
    network: &mut N,
    store: &mut T,
    clock: &C,
) -> Result<Done, Undone>
where
    R: Threads + Wait + Clone + Drop + Send + Sync,
    T::Kept: Send,
    requires sound { IsSound device }
    requires range { IsServingInRange asked }
    ensures { (before after : World) → ServesOr result asked device
        (record before {
          store = store_of T.Store store.old;
          network = network_of N.Network network.old;
          clock = C.moments clock.now;
        })
        (record after { store = store_of T.Store store.new; network = network_of N.Network network.new }) }
{
    let ServingWords {
        device: _,
        port,
        workers,
        store: place,
        connections,
        at,
    } = asked;
    kept_is_found();
    let clock = clock_of(at, clock);
    let manager = open_manager(alloc, drawn, store, device, place.as_ref())?;
    match network.listen(port, workers) {
        Ok(gates) => {
            let (manager, totals) = serve(rt, alloc, manager, network, gates, &clock, connections)?;
            let history = manager.length();
            hand_back(store, manager);
            Ok(Done { history, totals })
        }
        Err(fail) => {
            hand_back(store, manager);
            match fail {
                ListenFail::Failed => Err(Undone::NetworkFault),
                ListenFail::NoMemory => Err(Undone::Setback(Setback::NoMemory)),
            }
        }
    }
}

// Tells how a serving ended: prints its line, unless a gate failed.
fn tell_done<W: Sink, E: Sink>(done: Done, output: &mut W, errors: &mut E) -> u8
    ensures { TellsDone done.totals.failed done
        (voices_of W.Sink E.Sink output.old errors.old)
        (voices_of W.Sink E.Sink output.new errors.new)
        result }
{
    if done.totals.failed {
        return tell("am: network fault\n", 9, errors);
    }
    match write_done(done, output) {
        Ok(()) => 0,
        Err(Failed) => tell("am: write fault\n", 6, errors),
    }
}

// Writes the line of a serving that ended, without memory, as there may be none left.
fn write_done<W: Sink>(done: Done, output: &mut W) -> Result<(), Failed>
    ensures sent { Sends (W.taken output.old) (W.taken output.new) (done_line done) result }
    ensures never_falls { W.faults output.old ≤ W.faults output.new }
    ensures failed { OnErr result (HasRisen (W.faults output.old) (W.faults output.new)) }
{
    write_all(output, b"history ")?;
    write_number(done.history, output)?;
    write_all(output, b" served ")?;
    write_number(done.totals.served, output)?;
    write_all(output, b"\n")
}

// Writes a number.
fn write_number<W: Sink>(number: u64, output: &mut W) -> Result<(), Failed>
    ensures sent { Sends (W.taken output.old) (W.taken output.new) (decimal number) result }
    ensures never_falls { W.faults output.old ≤ W.faults output.new }
    ensures failed { OnErr result (HasRisen (W.faults output.old) (W.faults output.new)) }
{
    let mut digits = Buffer::new();
    write_all(output, digits.format(number).as_bytes())
}
