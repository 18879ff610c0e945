//! Writing to a sink.
ghost use Rattle.std.specs.Prelude.{◌≡◌, ℕ, ◌<◌, ◌≤◌, List, length, vec_capacity, IfOk, OnErr};
ghost use Rattle.am_outside.specs.Counts.{HasRisen};
ghost use Rattle.am_http.specs.Answering.{Says};
ghost use Rattle.am_http.specs.Links.{IsSameSink, sink_of};
ghost use Rattle.am_http.specs.Requests.{refusal_text};
ghost use Rattle.am_http.specs.Responses.{response};
ghost use Rattle.am_http.specs.Sending.{Sends, SendsFrom};
ghost use Rattle.am_http.specs.Sessions.{defect_text};

use crate::answer::{Answer, Refusal};
use crate::response::{
    defect_bytes, no_memory_before, put_no_memory_at, refusal_bytes, response_bytes,
};
use am_frames::frame::Defect;
use am_outside::{Failed, Sink};
use am_types::{NoMemory, Shown};
use std::alloc::Global;

// Writes once, from a place of the bytes on, and answers the place after what was taken.
fn write_from<W: Sink>(sink: &mut W, bytes: &[u8], at: usize) -> Result<usize, Failed>
    requires { at < length bytes.now }
    ensures sent { SendsFrom (W.taken sink.old) (W.taken sink.new) bytes.now at result }
    ensures same { IsSameSink (sink_of W.Sink sink.old) (sink_of W.Sink sink.new) }
    ensures failed { OnErr result (HasRisen (W.faults sink.old) (W.faults sink.new)) }
{
    let count = sink.write(&bytes[at..])?;
    Ok(at + count)
}

/// Writes all the bytes, in as many pieces as the sink takes.
pub fn write_all<W: Sink>(sink: &mut W, bytes: &[u8]) -> Result<(), Failed>
    ensures sent { Sends (W.taken sink.old) (W.taken sink.new) bytes.now result }
    ensures same { IsSameSink (sink_of W.Sink sink.old) (sink_of W.Sink sink.new) }
    ensures failed { OnErr result (HasRisen (W.faults sink.old) (W.faults sink.new)) }
{
    let mut at = 0;
    while at < bytes.len() {
        at = write_from(sink, bytes, at)?;
    }
    Ok(())
}

/// The response to a frame that makes no request.
pub fn refusal_text(alloc: Global, refusal: Refusal) -> Result<Vec<u8>, NoMemory>
    ensures { IfOk result (λ bytes. bytes.items ≡ refusal_text refusal) }
{
    match refusal {
        Refusal::NoRoute => refusal_bytes(alloc, 404, "no_route", None),
        Refusal::NoMethod => refusal_bytes(alloc, 405, "no_method", None),
        Refusal::BadRequest(fault) => {
            let name = format!(in alloc; "{fault}")?;
            refusal_bytes(alloc, 400, "bad_request", Some(name.as_str()))
        }
    }
}

// The response that shows a reply, whose memory is given back once its text is there.
fn shown_text(alloc: Global, shown: Shown) -> Result<Vec<u8>, NoMemory>
    ensures { IfOk result (λ bytes. bytes.items ≡ response shown.at shown.stored shown.reply) }
{
    let text = response_bytes(alloc, &shown);
    drop(shown);
    text
}

/// Writes the response that says an answer, or that memory ran out if there is none to print
/// it. `room` has room for the latter's text. While it is written only its text is held, and
/// afterwards nothing of it.
pub fn write_answer<W: Sink>(
    alloc: Global,
    sink: &mut W,
    room: &mut Vec<u8>,
    answer: Answer,
) -> Result<(), Failed>
    requires room { 192 ≤ vec_capacity room.old }
    ensures sent { (bytes : List ℕ) × Says answer bytes × Sends (W.taken sink.old) (W.taken sink.new) bytes result }
    ensures same { IsSameSink (sink_of W.Sink sink.old) (sink_of W.Sink sink.new) }
    ensures failed { OnErr result (HasRisen (W.faults sink.old) (W.faults sink.new)) }
    ensures capacity { vec_capacity room.new ≡ vec_capacity room.old }
{
    match answer {
        Answer::Refused(refusal) => match refusal_text(alloc, refusal) {
            Ok(bytes) => write_all(sink, bytes.as_slice()),
            Err(NoMemory) => write_all(sink, no_memory_before()),
        },
        Answer::Reply(shown) => {
            let (at, stored) = (shown.at, shown.stored);
            match shown_text(alloc, shown) {
                Ok(bytes) => write_all(sink, bytes.as_slice()),
                Err(NoMemory) => {
                    put_no_memory_at(room, at, stored);
                    write_all(sink, room.as_slice())
                }
            }
        }
        Answer::NoMemory => write_all(sink, no_memory_before()),
    }
}

/// Writes the text for a defect, which ends the connection.
pub fn write_defect<W: Sink>(sink: &mut W, defect: Defect) -> Result<(), Failed>
    ensures sent { Sends (W.taken sink.old) (W.taken sink.new) (defect_text defect) result }
    ensures same { IsSameSink (sink_of W.Sink sink.old) (sink_of W.Sink sink.new) }
    ensures failed { OnErr result (HasRisen (W.faults sink.old) (W.faults sink.new)) }
{
    write_all(sink, defect_bytes(defect))
}
