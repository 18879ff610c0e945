//! What a frame asks.
ghost use Rattle.std.specs.Prelude.{IfOk};
ghost use Rattle.am_frames.specs.FrameSpans.{frame_held};
ghost use Rattle.am_audit_answers.specs.Judging.{Asks};

use am_frames::frame::WholeFrame;
use am_http::{refusal_text, request_of};
use am_types::{List, NoMemory, Request, Unmade};
use am_wire_routes::Routes;
use std::alloc::Global;

/// The request that a frame makes, or the text that refuses it.
pub(crate) fn request_in(
    alloc: Global,
    routes: &Routes,
    frame: &WholeFrame<'_>,
) -> Result<Result<Request, List<u8>>, NoMemory>
    ensures { IfOk result (λ read. Asks (frame_held frame.now) read) }
{
    match request_of(alloc, routes, frame) {
        Ok(request) => Ok(Ok(request)),
        Err(Unmade::Fault(refusal)) => Ok(Err(List::new(refusal_text(alloc, refusal)?))),
        Err(Unmade::NoMemory) => Err(NoMemory),
    }
}
