//! The answer to a frame.
ghost use Rattle.std.specs.Prelude.{◌≡◌, ◌≤◌, length, IfOk, IsTrue, IsUtf8};
ghost use Rattle.am_types.specs.Bounds.{longest_body};
ghost use Rattle.am_types.specs.Reading.{Gives};
ghost use Rattle.am_wire.specs.Requests.{request_of as request_at};
ghost use Rattle.am_frames.specs.FrameSpans.{frame_held};
ghost use Rattle.am_http.specs.Requests.{request_of, request_or};
ghost use Rattle.am_http.specs.Answering.{AnswersAt, AnswersFrame, HasNext, point_of};
ghost use Rattle.am_http.specs.Exchanges.{IsAbove, floor_after};
ghost use Rattle.am_http.specs.Links.{GoesOn};

use am_desk::{Desk, DeskCall};
use am_frames::frame::WholeFrame;
use am_outside::Clock;
use am_types::{NoMemory, Request, Shown, Text, Unmade};
use am_wire::read_request;
use am_wire_fields::WireFault;
use am_wire_routes::{Endpoint, RouteFault, Routes};
use std::alloc::Global;
use std::str;

/// Why a frame makes no request of the manager. The connection goes on.
#[derive(Drop)]
pub enum Refusal {
    /// There is no such route.
    NoRoute,
    /// The route takes another method.
    NoMethod,
    /// The body makes no request at the route; the first fault of it.
    BadRequest(WireFault),
}

/// The answer to a frame.
#[derive(Drop)]
pub enum Answer {
    /// It makes no request.
    Refused(Refusal),
    /// The manager's reply, with its place in the history.
    Reply(Shown),
    /// Memory ran out before the call was made.
    NoMemory,
}

// The request that the body makes at the endpoint, or why it makes none.
fn request_at(alloc: Global, endpoint: Endpoint, body: &[u8]) -> Result<Request, Unmade<Refusal>>
    ensures { Gives result (request_or (request_at endpoint body.now)) }
{
    match read_request(alloc, endpoint, body) {
        Ok(request) => Ok(request),
        Err(Unmade::Fault(fault)) => Err(Unmade::Fault(Refusal::BadRequest(fault))),
        Err(Unmade::NoMemory) => Err(Unmade::NoMemory),
    }
}

/// The request that a frame makes.
///
/// # Errors
///
/// `Unmade::Fault` with why it makes none, and `Unmade::NoMemory` if memory ran out.
pub fn request_of(
    alloc: Global,
    routes: &Routes,
    frame: &WholeFrame<'_>,
) -> Result<Request, Unmade<Refusal>>
    ensures { Gives result (request_of (frame_held frame.now)) }
{
    match routes.route(frame.method, frame.target) {
        Ok(endpoint) => request_at(alloc, endpoint, frame.body),
        Err(RouteFault::NoMethod(_)) => Err(Unmade::Fault(Refusal::NoMethod)),
        Err(RouteFault::NoRoute) => Err(Unmade::Fault(Refusal::NoRoute)),
    }
}

/// The key of a frame, which is UTF-8, as a text.
pub fn key_text(alloc: Global, key: &[u8]) -> Result<Text, NoMemory>
    requires { IsUtf8 key.now }
    ensures { IfOk result (λ text. text ≡ key.now) }
{
    match str::from_utf8(key) {
        Ok(key) => Ok(Text::of(alloc, key)?),
        Err(_) => unreachable!(),
    }
}

// Makes the call of a frame, whose answer has that least place.
fn call<D: Desk>(
    alloc: Global,
    desk: &mut D,
    now: u64,
    frame: &WholeFrame<'_>,
    request: Request,
    least: u64,
) -> Answer
    requires key { IsUtf8 (frame_held frame.now).key }
    requires body { length (frame_held frame.now).body ≤ longest_body }
    requires request { request_of (frame_held frame.now) ≡ Ok request }
    ensures answer { AnswersAt (D.view desk.old) (D.view desk.new) (frame_held frame.now) now result }
    ensures least { IsTrue D.waits → IsAbove least (point_of result) }
    ensures goes_on { GoesOn (D.view desk.old) (D.view desk.new) }
{
    let Ok(key) = key_text(alloc, frame.key) else {
        drop(request);
        return Answer::NoMemory;
    };
    match desk.call(DeskCall {
        key: &key,
        now,
        weight: frame.body.len() as u32,
        request,
        least,
    }) {
        Ok(shown) => Answer::Reply(shown),
        Err(NoMemory) => Answer::NoMemory,
    }
}

/// Answers a frame: if the frame makes a request, it asks the clock once and makes the call, whose answer has that least
/// place.
pub fn answer_frame<D: Desk, C: Clock>(
    alloc: Global,
    routes: &Routes,
    desk: &mut D,
    clock: &mut C,
    frame: &WholeFrame<'_>,
    least: u64,
) -> Answer
    requires key { IsUtf8 (frame_held frame.now).key }
    requires body { length (frame_held frame.now).body ≤ longest_body }
    ensures answer { AnswersFrame
        (record { desk = D.view desk.old; clock = C.moments clock.old })
        (record { desk = D.view desk.new; clock = C.moments clock.new })
        (frame_held frame.now) result }
    ensures least { IsTrue D.waits → IsAbove least (point_of result) }
    ensures goes_on { GoesOn (D.view desk.old) (D.view desk.new) }
{
    match request_of(alloc, routes, frame) {
        Ok(request) => {
            let now = clock.now();
            call(alloc, desk, now, frame, request, least)
        }
        Err(Unmade::Fault(refusal)) => Answer::Refused(refusal),
        Err(Unmade::NoMemory) => Answer::NoMemory,
    }
}

/// The least place of a later answer, once this one was given.
pub fn least_after(least: u64, answer: &Answer) -> u64
    requires { HasNext (point_of answer.now) }
    ensures { result ≡ floor_after least (point_of answer.now) }
{
    match answer {
        Answer::Reply(shown) if shown.stored => shown.at + 1,
        Answer::Reply(shown) => shown.at,
        Answer::Refused(_) | Answer::NoMemory => least,
    }
}
