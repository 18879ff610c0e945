//! The top call.
ghost use Rattle.am_shell.specs.Runs.{Runs};
ghost use Rattle.am_shell.specs.World.{world_of};

use crate::drilling::run_drill;
use crate::question::run_question;
use crate::serving::run_serving;
use crate::session::run_session;
use crate::telling::tell_no_memory;
use am_console::tell;
use am_keeper::Store;
use am_network::Network;
use am_outside::{Clock, Files, Sink, Source};
use am_types::Text;
use am_words::{Command, WordsFault, read_command};
use std::alloc::Global;
use std::hash::RandomState;
use std::sync::Wait;
use std::thread::Threads;

/// Runs the command that the words say.
///
/// - A session, from the input to the output, over the device file and the rows that the store keeps at the place of
///   the words, to which its keeper is handed back at the end. Its moments are those of the clock that the words ask
///   for, if they do, otherwise of the clock that is handed in.
/// - What a package of the device file, which is read with the packages' queries, sees of the components that a query
///   finds. The query is read from the input, to its end or to one byte more than a body may have.
///   The line that answers it is printed on the output.
/// - A serving: as many workers as the words say, each in a thread of its own if there are threads, serve the links of
///   as many gates of the network, over the device file and the rows that the store keeps at the place of the words, to
///   which its keeper is handed back at the end. Each worker has a clock of its own, which stays at the moment of the
///   words, if they say one, otherwise tells what the clock that is handed in tells. It ends when no link is to come, a
///   call of its gate fails, or it has served as many links as the words say. Then the length of the history and the
///   number of links served are printed on the output. It waits for the links of the network.
/// - A drill: as many generated requests as the words say, on a generated device, in memory. The counts of their
///   replies are printed on the output.
///
/// Its status is 0 if the work ended well, 1 if a session ended at a refused or a cut frame or at the limit, 2 for
/// words that aren't a command, 3 for a refused device file, 4, 5 and 6 for a fault of the files, of the input and of
/// the output or the errors, 7 for a fault of the store, 8 if memory ran out, which in a session happens only before
/// the first frame and in a serving before the first link is handed out, 9 for a fault of the network, which then has
/// handed out no link, or of one of its gates, whose worker has served none after it, 10 for a kept row that is
/// refused, 11 for a question that isn't a query, and 12 for a package that the device doesn't have. Each except 0 has
/// its line on the errors.
pub fn run<R, F: Files, S: Source, W: Sink, E: Sink, N: Network, T: Store, C: Clock>(
    rt: &R,
    alloc: Global,
    words: &[Text],
    files: &mut F,
    input: &mut S,
    output: &mut W,
    errors: &mut E,
    network: &mut N,
    store: &mut T,
    clock: &mut C,
) -> u8
where
    R: Threads + Wait + Clone + Drop + Send + Sync,
    T::Kept: Send,
    ensures { Runs words.now
        (world_of F.Files T.Store S.Source W.Sink C.Clock N.Network E.Sink
        files.old store.old input.old output.old clock.old network.old errors.old)
        (world_of F.Files T.Store S.Source W.Sink C.Clock N.Network E.Sink
        files.new store.new input.new output.new clock.new network.new errors.new)
        result }
{
    run_keyed(
        rt, alloc, words, files, input, output, errors, network, store, clock, None,
    )
}

/// The same, but a serving hashes what its clients choose under the keys that were drawn, if some were. Nothing that
/// the program says depends on them.
pub fn run_keyed<R, F: Files, S: Source, W: Sink, E: Sink, N: Network, T: Store, C: Clock>(
    rt: &R,
    alloc: Global,
    words: &[Text],
    files: &mut F,
    input: &mut S,
    output: &mut W,
    errors: &mut E,
    network: &mut N,
    store: &mut T,
    clock: &mut C,
    drawn: Option<RandomState>,
) -> u8
where
    R: Threads + Wait + Clone + Drop + Send + Sync,
    T::Kept: Send,
    ensures { Runs words.now
        (world_of F.Files T.Store S.Source W.Sink C.Clock N.Network E.Sink
        files.old store.old input.old output.old clock.old network.old errors.old)
        (world_of F.Files T.Store S.Source W.Sink C.Clock N.Network E.Sink
        files.new store.new input.new output.new clock.new network.new errors.new)
        result }
{
    match read_command(alloc, words) {
        Ok(Command::Session(asked)) => {
            run_session(alloc, asked, files, input, output, errors, store, clock)
        }
        Ok(Command::Serve(asked)) => run_serving(
            rt, alloc, drawn, asked, files, output, errors, network, store, clock,
        ),
        Ok(Command::Drill(asked)) => run_drill(alloc, asked, output, errors),
        Ok(Command::Visible(asked)) => run_question(alloc, asked, files, input, output, errors),
        Err(WordsFault::Usage) => tell("am: usage\n", 2, errors),
        Err(WordsFault::NoMemory) => tell_no_memory(errors),
    }
}
