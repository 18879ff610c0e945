//! Reading frames from a source.
ghost use Rattle.std.specs.Prelude.{◌≡◌, ◌<◌, ◌≤◌, true, [], length, IfOk, IfSome, OnErr, IsNone};
ghost use Rattle.std.specs.Io.KnownBytes.{Keeps, prepend_known};
ghost use Rattle.am_outside.specs.Counts.{HasRisen};
ghost use Rattle.am_http.specs.Links.{IsSameSource, source_of};
ghost use Rattle.am_http.specs.Sessions.{IsPartial, GivesAtMost, most_held};
ghost use Rattle.am_http.specs.Windows.{Finds, Reads, is_open};

use crate::window::Window;
use am_frames::frame::{Found, find_frame};
use am_outside::{Failed, Source};

// Whether more bytes are needed to know the first frame.
fn wants_more(found: &Found) -> bool
    ensures { result ≡ is_open found.now }
{
    match found {
        Found::Whole(_) | Found::Refused(_) => false,
        Found::Empty | Found::Cut => true,
    }
}

// Looks for a frame in the window. If more bytes are needed it reads once, and answers none
// if some came.
fn look<S: Source>(source: &mut S, window: &mut Window) -> Result<Option<Found>, Failed>
    ensures kept { Keeps (prepend_known window.old (S.left source.old)) (prepend_known window.new (S.left source.new)) }
    ensures reads { Reads window.old window.new (S.left source.old) (S.left source.new) }
    ensures found { IfOk result (λ answer. IfSome answer (Finds window.new (S.left source.new))) }
    ensures more { IfOk result (λ answer. IsNone answer → length window.old < length window.new) }
    ensures fits { length window.new ≤ most_held }
    ensures partial { OnErr result (IsPartial window.new) }
    ensures same { IsSameSource (source_of S.Source source.old) (source_of S.Source source.new) }
    ensures failed { OnErr result (HasRisen (S.faults source.old) (S.faults source.new)) }
    ensures waits { S.waits source.new ≡ S.waits source.old }
{
    let found = find_frame(window.bytes());
    if !wants_more(&found) {
        return Ok(Some(found));
    }
    let count = window.fill(source)?;
    Ok(if count == 0 { Some(found) } else { None })
}

/// Whether no byte of a next frame is in the window, and the source says that a read would wait.
pub fn is_idle<S: Source>(source: &mut S, window: &Window) -> bool
    ensures empty { result ≡ true → window.now ≡ [] }
    ensures same { source_of S.Source source.new ≡ source_of S.Source source.old }
    ensures never_falls { S.waits source.old ≤ S.waits source.new }
    ensures waits { result ≡ true → HasRisen (S.waits source.old) (S.waits source.new) }
{
    window.bytes().is_empty() && !source.is_ready()
}

/// Reads until the first frame of what is left is known.
pub fn next_frame<S: Source>(source: &mut S, window: &mut Window) -> Result<Found, Failed>
    ensures kept { Keeps (prepend_known window.old (S.left source.old)) (prepend_known window.new (S.left source.new)) }
    ensures gives { GivesAtMost most_held (S.left source.old) (S.left source.new) }
    ensures found { IfOk result (Finds window.new (S.left source.new)) }
    ensures fits { length window.new ≤ most_held }
    ensures partial { OnErr result (IsPartial window.new) }
    ensures same { IsSameSource (source_of S.Source source.old) (source_of S.Source source.new) }
    ensures failed { OnErr result (HasRisen (S.faults source.old) (S.faults source.new)) }
    ensures waits { S.waits source.new ≡ S.waits source.old }
{
    loop {
        if let Some(found) = look(source, window)? {
            return Ok(found);
        }
    }
}
