//! One connection, from its first frame to its end.
ghost use Rattle.std.specs.Prelude.{◌≡◌, ◌≤◌, ◌-◌, true, vec_capacity};
ghost use Rattle.am_outside.specs.Counts.{HasRisen};
ghost use Rattle.am_http.specs.Exchanges.{RaisesAlong};
ghost use Rattle.am_http.specs.Links.{IsSameLink, link_of, streams_of};
ghost use Rattle.am_http.specs.Sessions.{Session, Visit, HasFault, GivesAtMost, most_frames, most_held};
ghost use Rattle.am_http.specs.Turns.{Turns, HasFaultAt};

use crate::answer::{answer_frame, least_after};
use crate::buffers::Buffers;
use crate::end::{End, Served};
use crate::reader::{is_idle, next_frame};
use crate::send::{write_answer, write_defect};
use crate::window::Window;
use am_desk::Desk;
use am_frames::frame::Found;
use am_outside::{Clock, Sink, Source};
use am_wire_routes::Routes;
use std::alloc::Global;

/// The most frames of a connection that are answered.
pub const MAX_FRAMES: u32 = 65_536;

/// What became of the next frame.
#[derive(Clone, Copy)]
pub enum Turn {
    /// It was answered, and the connection goes on.
    Went,
    /// It was answered, and asked to close.
    Closed,
    /// The connection ended without a further answer that was written whole.
    Stopped(End),
}

// Reads the next frame and answers it.
fn serve_frame<D: Desk, S: Source, W: Sink, C: Clock>(
    alloc: Global,
    desk: &mut D,
    source: &mut S,
    sink: &mut W,
    clock: &mut C,
    routes: &Routes,
    window: &mut Window,
    room: &mut Vec<u8>,
    least: &mut u64,
) -> Turn
    requires { 192 ≤ vec_capacity room.old }
    ensures turn { Turns D.waits result
        (record {
          link = link_of (D.view desk.old) (streams_of S.Source W.Sink C.Clock source.old sink.old clock.old);
          window = window.old;
          least = least.old;
        })
        (record {
          link = link_of (D.view desk.new) (streams_of S.Source W.Sink C.Clock source.new sink.new clock.new);
          window = window.new;
          least = least.new;
        }) }
    ensures gives { GivesAtMost most_held (S.left source.old) (S.left source.new) }
    ensures fault { HasFaultAt result
        (link_of (D.view desk.old) (streams_of S.Source W.Sink C.Clock source.old sink.old clock.old))
        (link_of (D.view desk.new) (streams_of S.Source W.Sink C.Clock source.new sink.new clock.new)) }
    ensures same { IsSameLink
        (link_of (D.view desk.old) (streams_of S.Source W.Sink C.Clock source.old sink.old clock.old))
        (link_of (D.view desk.new) (streams_of S.Source W.Sink C.Clock source.new sink.new clock.new)) }
    ensures awake { result ≡ Turn.Stopped End.Idle → ⊥ }
    ensures waits { S.waits source.new ≡ S.waits source.old }
    ensures capacity { vec_capacity room.new ≡ vec_capacity room.old }
{
    let Ok(found) = next_frame(source, window) else {
        return Turn::Stopped(End::ReadFault);
    };
    let spans = match found {
        Found::Whole(spans) => spans,
        Found::Empty => return Turn::Stopped(End::Input),
        Found::Cut => return Turn::Stopped(End::Cut),
        Found::Refused(defect) => {
            return match write_defect(sink, defect) {
                Ok(()) => Turn::Stopped(End::Refused),
                Err(_) => Turn::Stopped(End::WriteFault),
            };
        }
    };
    let answer = answer_frame(
        alloc,
        routes,
        desk,
        clock,
        &spans.of(window.bytes()),
        *least,
    );
    *least = least_after(*least, &answer);
    let written = write_answer(alloc, sink, room, answer);
    if written.is_err() {
        return Turn::Stopped(End::WriteFault);
    }
    window.consume(spans.length);
    if spans.close {
        Turn::Closed
    } else {
        Turn::Went
    }
}

// Reads the next frame and answers it; or rests, if that is allowed, none of it was read, and a
// read would wait.
fn serve_turn<D: Desk, S: Source, W: Sink, C: Clock>(
    alloc: Global,
    desk: &mut D,
    source: &mut S,
    sink: &mut W,
    clock: &mut C,
    routes: &Routes,
    window: &mut Window,
    room: &mut Vec<u8>,
    least: &mut u64,
    rests: bool,
) -> Turn
    requires { 192 ≤ vec_capacity room.old }
    ensures turn { Turns D.waits result
        (record {
          link = link_of (D.view desk.old) (streams_of S.Source W.Sink C.Clock source.old sink.old clock.old);
          window = window.old;
          least = least.old;
        })
        (record {
          link = link_of (D.view desk.new) (streams_of S.Source W.Sink C.Clock source.new sink.new clock.new);
          window = window.new;
          least = least.new;
        }) }
    ensures gives { GivesAtMost most_held (S.left source.old) (S.left source.new) }
    ensures fault { HasFaultAt result
        (link_of (D.view desk.old) (streams_of S.Source W.Sink C.Clock source.old sink.old clock.old))
        (link_of (D.view desk.new) (streams_of S.Source W.Sink C.Clock source.new sink.new clock.new)) }
    ensures same { IsSameLink
        (link_of (D.view desk.old) (streams_of S.Source W.Sink C.Clock source.old sink.old clock.old))
        (link_of (D.view desk.new) (streams_of S.Source W.Sink C.Clock source.new sink.new clock.new)) }
    ensures rests { result ≡ Turn.Stopped End.Idle → rests ≡ true }
    ensures never_falls { S.waits source.old ≤ S.waits source.new }
    ensures waits { result ≡ Turn.Stopped End.Idle → HasRisen (S.waits source.old) (S.waits source.new) }
    ensures capacity { vec_capacity room.new ≡ vec_capacity room.old }
{
    if rests && is_idle(source, window) {
        return Turn::Stopped(End::Idle);
    }
    serve_frame(
        alloc, desk, source, sink, clock, routes, window, room, least,
    )
}

/// Serves a connection as `serve_connection` does, after so many of its frames were answered before.
/// If it may rest, it ends as `Idle` when the source says that a read would wait. It asks the source
/// before each frame of which no byte was read: then all that was taken from the source are
/// frames that were answered. `answered` counts the frames of this call.
///
/// The places of the answers aren't below `least` if the desk waits, nor below an earlier one, and
/// after a stored call they are above its place. `least` is then the least place of a later answer.
pub fn serve_link<D: Desk, S: Source, W: Sink, C: Clock>(
    alloc: Global,
    desk: &mut D,
    source: &mut S,
    sink: &mut W,
    clock: &mut C,
    buffers: &mut Buffers,
    before: u32,
    least: &mut u64,
    rests: bool,
) -> Served
    ensures session { (visit : Visit (most_frames - before)
        (link_of (D.view desk.old) (streams_of S.Source W.Sink C.Clock source.old sink.old clock.old))
        (link_of (D.view desk.new) (streams_of S.Source W.Sink C.Clock source.new sink.new clock.new))
        result) × RaisesAlong D.waits least.old least.new visit.exchanges }
    ensures fault { HasFault result.end
        (link_of (D.view desk.old) (streams_of S.Source W.Sink C.Clock source.old sink.old clock.old))
        (link_of (D.view desk.new) (streams_of S.Source W.Sink C.Clock source.new sink.new clock.new)) }
    ensures same { IsSameLink
        (link_of (D.view desk.old) (streams_of S.Source W.Sink C.Clock source.old sink.old clock.old))
        (link_of (D.view desk.new) (streams_of S.Source W.Sink C.Clock source.new sink.new clock.new)) }
    ensures rests { result.end ≡ End.Idle → rests ≡ true }
    ensures never_falls { S.waits source.old ≤ S.waits source.new }
    ensures waits { result.end ≡ End.Idle → HasRisen (S.waits source.old) (S.waits source.new) }
{
    buffers.window.clear();
    let most = MAX_FRAMES.saturating_sub(before);
    for answered in 0..most {
        match serve_turn(
            alloc,
            desk,
            source,
            sink,
            clock,
            &buffers.routes,
            &mut buffers.window,
            &mut buffers.room,
            least,
            rests,
        ) {
            Turn::Went => {}
            Turn::Closed => {
                return Served {
                    end: End::Close,
                    answered: answered + 1,
                };
            }
            Turn::Stopped(end) => return Served { end, answered },
        }
    }
    Served {
        end: End::Limit,
        answered: most,
    }
}

/// Serves a connection: it reads frames from the source, makes their calls on the desk, and
/// writes the responses to the sink, one frame after the other, until the input ends, a frame
/// asks to close, a frame has a defect, as many frames as a connection may have were answered, or
/// the source or the sink fails. The clock is asked once per call, just before it. What the
/// buffers held before doesn't matter.
///
/// It never runs out of memory itself: a frame for which memory runs out is answered by a 507.
pub fn serve_connection<D: Desk, S: Source, W: Sink, C: Clock>(
    alloc: Global,
    desk: &mut D,
    source: &mut S,
    sink: &mut W,
    clock: &mut C,
    buffers: &mut Buffers,
) -> Served
    ensures session { Session
        (link_of (D.view desk.old) (streams_of S.Source W.Sink C.Clock source.old sink.old clock.old))
        (link_of (D.view desk.new) (streams_of S.Source W.Sink C.Clock source.new sink.new clock.new))
        result }
    ensures fault { HasFault result.end
        (link_of (D.view desk.old) (streams_of S.Source W.Sink C.Clock source.old sink.old clock.old))
        (link_of (D.view desk.new) (streams_of S.Source W.Sink C.Clock source.new sink.new clock.new)) }
    ensures same { IsSameLink
        (link_of (D.view desk.old) (streams_of S.Source W.Sink C.Clock source.old sink.old clock.old))
        (link_of (D.view desk.new) (streams_of S.Source W.Sink C.Clock source.new sink.new clock.new)) }
    ensures whole { result.end ≡ End.Idle → ⊥ }
{
    let mut least = 0;
    serve_link(
        alloc, desk, source, sink, clock, buffers, 0, &mut least, false,
    )
}
