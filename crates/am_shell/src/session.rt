//! One session of a device over an input and an output.
ghost use Rattle.std.specs.Prelude.{◌≡◌};
ghost use Rattle.am_model.specs.Sound.{IsSound};
ghost use Rattle.am_console.specs.Files.{shelf_of};
ghost use Rattle.am_http.specs.Links.{link_of, sink_of, streams_of};
ghost use Rattle.am_shell.specs.Clocks.{ServesOn};
ghost use Rattle.am_shell.specs.Sessions.{Happens, ServesOr};
ghost use Rattle.am_shell.specs.Lines.{end_line, end_status};
ghost use Rattle.am_shell.specs.Runs.{RunsSession};
ghost use Rattle.am_shell.specs.World.{World, store_of, with_streams};

use crate::device::read_device_file;
use crate::kept::{hand_back, open_manager};
use crate::undone::Undone;
use am_console::tell;
use am_desk::Desk;
use am_http::{Buffers, End, serve_connection};
use am_keeper::Store;
use am_laws_kept::kept_is_found;
use am_machine::SoleDesk;
use am_outside::{Clock, Files, Sink, Source, StepClock};
use am_types::Device;
use am_words::{SessionWords, StepWords};
use std::alloc::Global;

/// Runs the session that is asked for, from the input to the output: it begins with the rows that the store keeps at
/// the place of the words, and its keeper is handed back to the store at the end. Its moments are those of the clock
/// that the words ask for, if they do, otherwise of the clock that is handed in. Answers the status, whose line it
/// writes on the errors.
pub fn run_session<F: Files, S: Source, W: Sink, E: Sink, T: Store, C: Clock>(
    alloc: Global,
    asked: SessionWords,
    files: &mut F,
    input: &mut S,
    output: &mut W,
    errors: &mut E,
    store: &mut T,
    clock: &mut C,
) -> u8
    ensures { (before after : World) → RunsSession asked
        (record (with_streams before (streams_of S.Source W.Sink C.Clock input.old output.old clock.old)) {
          files = shelf_of F.Files files.old;
          store = store_of T.Store store.old;
          errors = sink_of E.Sink errors.old;
        })
        (record (with_streams after (streams_of S.Source W.Sink C.Clock input.new output.new clock.new)) {
          files = shelf_of F.Files files.new;
          store = store_of T.Store store.new;
          errors = sink_of E.Sink errors.new;
        })
        result }
{
    match open_session(alloc, asked, files, input, output, store, clock) {
        Ok(end) => tell(end_line(end), end_status(end), errors),
        Err(why) => tell(why.line(), why.status(), errors),
    }
}

// All except the line on the errors.
fn open_session<F: Files, S: Source, W: Sink, T: Store, C: Clock>(
    alloc: Global,
    asked: SessionWords,
    files: &mut F,
    input: &mut S,
    output: &mut W,
    store: &mut T,
    clock: &mut C,
) -> Result<End, Undone>
    ensures { (before after : World) → Happens result asked
        (record (with_streams before (streams_of S.Source W.Sink C.Clock input.old output.old clock.old)) {
          files = shelf_of F.Files files.old;
          store = store_of T.Store store.old;
        })
        (record (with_streams after (streams_of S.Source W.Sink C.Clock input.new output.new clock.new)) {
          files = shelf_of F.Files files.new;
          store = store_of T.Store store.new;
        }) }
{
    let device = read_device_file(alloc, files, &asked.device)?;
    let end = serve_session(alloc, device, asked, input, output, store, clock)?;
    Ok(end)
}

// Serves the session that is asked for, of a sound device, and answers how it ended, or why it didn't begin.
fn serve_session<S: Source, W: Sink, T: Store, C: Clock>(
    alloc: Global,
    device: Device,
    asked: SessionWords,
    input: &mut S,
    output: &mut W,
    store: &mut T,
    clock: &mut C,
) -> Result<End, Undone>
    requires sound { IsSound device }
    ensures { (before after : World) → ServesOr result asked device
        (record (with_streams before (streams_of S.Source W.Sink C.Clock input.old output.old clock.old)) {
          store = store_of T.Store store.old;
        })
        (record (with_streams after (streams_of S.Source W.Sink C.Clock input.new output.new clock.new)) {
          store = store_of T.Store store.new;
        }) }
{
    let SessionWords {
        device: _,
        store: place,
        clock: own,
    } = asked;
    let mut buffers = Buffers::new(alloc)?;
    // The one client of a session slows only itself.
    let manager = open_manager(alloc, None, store, device, place.as_ref())?;
    let mut desk = SoleDesk::new(manager);
    let end = serve_on(alloc, &mut desk, own, input, output, clock, &mut buffers);
    hand_back(store, desk.into_manager());
    kept_is_found();
    Ok(end)
}

// Serves the input on the desk, by the clock that is asked for, otherwise by the one that is handed in.
fn serve_on<D: Desk, S: Source, W: Sink, C: Clock>(
    alloc: Global,
    desk: &mut D,
    asked: Option<StepWords>,
    input: &mut S,
    output: &mut W,
    clock: &mut C,
    buffers: &mut Buffers,
) -> End
    ensures { ServesOn asked result
        (link_of (D.view desk.old) (streams_of S.Source W.Sink C.Clock input.old output.old clock.old))
        (link_of (D.view desk.new) (streams_of S.Source W.Sink C.Clock input.new output.new clock.new)) }
{
    match asked {
        None => serve_connection(alloc, desk, input, output, clock, buffers).end,
        Some(asked) => {
            let mut own = StepClock::new(asked.at, asked.step);
            serve_connection(alloc, desk, input, output, &mut own, buffers).end
        }
    }
}

// The line for a session's end.
fn end_line(end: End) -> &'static str
    ensures { result.now ≡ end_line end }
{
    match end {
        // A session never rests.
        End::Input | End::Close | End::Idle => "",
        End::Refused => "am: session ended: refused\n",
        End::Cut => "am: session ended: cut\n",
        End::Limit => "am: session ended: limit\n",
        End::ReadFault => "am: read fault\n",
        End::WriteFault => "am: write fault\n",
    }
}

// The status for a session's end.
fn end_status(end: End) -> u8
    ensures { result ≡ end_status end }
{
    match end {
        End::Input | End::Close | End::Idle => 0,
        End::Refused | End::Cut | End::Limit => 1,
        End::ReadFault => 5,
        End::WriteFault => 6,
    }
}
