//! One worker.
ghost use Rattle.std.specs.Prelude.{◌≡◌, ◌+◌, ◌≤◌, IfSome};
ghost use Rattle.am_network.specs.Links.{AreBack, MayTakeBack, firsts, link_of};
ghost use Rattle.am_http.specs.Sessions.{most_frames};
ghost use Rattle.am_http.specs.Links.{GoesOn};
ghost use Rattle.am_workers.specs.Work.{IsBack, TellsShort, TriesNext, Works, gate_of, worker_of};

use am_desk::Desk;
use am_http::{Buffers, End, Served, serve_link};
use am_network::{Acceptor, Progress};
use am_outside::{Clock, Failed};
use std::alloc::Global;
use std::sync::Wait;

/// What a worker did, or workers together.
#[derive(Clone, Copy, Debug, PartialEq, Eq)]
pub struct Worked {
    /// How many links were served and ended. It stays at the greatest 64-bit number.
    pub served: u64,
    /// Whether a worker stopped since its gate failed.
    pub failed: bool,
}

/// What one turn of a worker did: how many links it took for the first time, and how many it ended, none or one.
#[derive(Clone, Copy)]
pub struct Turn {
    pub taken: u64,
    pub ended: u64,
}

// Hands a link back to the gate, of which so many frames were answered before it was served so, and whose further answers
// have that least place: parked if it is idle and the gate parks it, else ended. Answers how many links ended by that,
// which is none or one.
fn hand_back<A: Acceptor>(
    gate: &mut A,
    reader: A::Reader,
    writer: A::Writer,
    progress: Progress,
    served: Served,
) -> u64
    requires may { MayTakeBack (A.links gate.old) (link_of A.Reader.Source A.Writer.Sink reader writer) }
    requires few { served.end ≡ End.Idle → progress.answered + served.answered ≤ most_frames }
    ensures back { IsBack served.end (gate_of A.Acceptor gate.old) (gate_of A.Acceptor gate.new)
        (record {
          link = link_of A.Reader.Source A.Writer.Sink reader writer;
          progress = record {
            answered = progress.answered + served.answered;
            least = progress.least;
          };
        })
        result }
    ensures never_falls { A.faults gate.old ≤ A.faults gate.new }
{
    match served.end {
        End::Idle => {
            let progress = Progress {
                answered: progress.answered + served.answered,
                least: progress.least,
            };
            if gate.park(reader, writer, progress) {
                0
            } else {
                1
            }
        }
        _ => {
            gate.finish(reader, writer);
            1
        }
    }
}

// How many links are taken for the first time by one that was so far before.
fn count_first(before: Option<Progress>) -> u64
    ensures { result ≡ firsts before }
{
    match before {
        None => 1,
        Some(_) => 0,
    }
}

// Serves the next link, which is a new one only if those are taken; or answers that there was none.
fn serve_next<D: Desk, A: Acceptor, C: Clock>(
    alloc: Global,
    desk: &mut D,
    gate: &mut A,
    clock: &mut C,
    buffers: &mut Buffers,
    takes_new: bool,
) -> Result<Option<Turn>, Failed>
    requires back { IfSome (A.links gate.old) AreBack }
    ensures next { TriesNext takes_new
        (worker_of D.Desk A.Acceptor C.Clock desk.old gate.old clock.old)
        (worker_of D.Desk A.Acceptor C.Clock desk.new gate.new clock.new)
        result }
    ensures desk { GoesOn (D.view desk.old) (D.view desk.new) }
    ensures never_falls { A.faults gate.old ≤ A.faults gate.new }
    ensures back { IfSome (A.links gate.new) AreBack }
{
    let Some((mut reader, mut writer, before)) = gate.next_link(takes_new)? else {
        return Ok(None);
    };
    let taken = count_first(before);
    let mut progress = before.unwrap_or(Progress {
        answered: 0,
        least: 0,
    });
    let served = serve_link(
        alloc,
        desk,
        &mut reader,
        &mut writer,
        clock,
        buffers,
        progress.answered,
        &mut progress.least,
        true,
    );
    let ended = hand_back(gate, reader, writer, progress, served);
    Ok(Some(Turn { taken, ended }))
}

/// Serves the links of a gate on a desk, one after the other, and hands each back to the gate once its connection has
/// ended, or parks it while it is idle, until no link is to come or the gate fails. A link that was parked is served
/// further when the gate hands it out again, and if the desk waits, its places go on from there. Once it took as many
/// links as are asked for, which are at least 1, it takes no new one, and works until those have ended. It waits for the
/// links, and its calls for those of other desks.
pub fn work<R: Wait, D: Desk, A: Acceptor, C: Clock>(
    rt: &R,
    alloc: Global,
    desk: &mut D,
    gate: &mut A,
    clock: &mut C,
    buffers: &mut Buffers,
    most: Option<u32>,
) -> Worked
    requires back { IfSome (A.links gate.old) AreBack }
    requires some { IfSome most (λ m. 1 ≤ m) }
    ensures works { Works most
        (worker_of D.Desk A.Acceptor C.Clock desk.old gate.old clock.old)
        (worker_of D.Desk A.Acceptor C.Clock desk.new gate.new clock.new)
        result }
    ensures back { IfSome (A.links gate.new) AreBack }
{
    let mut taken: u64 = 0;
    let mut served: u64 = 0;
    for _ in rt.forever() {
        let takes_new = is_short(taken, most);
        match serve_next(alloc, desk, gate, clock, buffers, takes_new) {
            Ok(Some(turn)) => {
                taken = taken.saturating_add(turn.taken);
                served = served.saturating_add(turn.ended);
            }
            Ok(None) => {
                return Worked {
                    served,
                    failed: false,
                };
            }
            Err(_) => {
                return Worked {
                    served,
                    failed: true,
                };
            }
        }
    }
    unreachable!()
}

// Whether that many links are fewer than are asked for.
fn is_short(taken: u64, most: Option<u32>) -> bool
    ensures { TellsShort most taken result }
{
    match most {
        None => true,
        Some(most) => taken < u64::from(most),
    }
}
