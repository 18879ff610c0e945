//! What is told on the errors.
ghost use Rattle.std.specs.Prelude.{◌≡◌};
ghost use Rattle.am_http.specs.Links.{sink_of};
ghost use Rattle.am_console.specs.Telling.{Tells};
ghost use Rattle.am_audit_shell.specs.Lines.{setback_line, no_memory_line};

use am_console::{Setback, tell};
use am_outside::Sink;

/// Writes on the errors that memory ran out, and answers the status: 8, or 6 if the line couldn't be written.
pub fn tell_no_memory<E: Sink>(errors: &mut E) -> u8
    ensures { Tells no_memory_line 8 (sink_of E.Sink errors.old) (sink_of E.Sink errors.new) result }
{
    tell("am_audit: out of memory\n", 8, errors)
}

/// The line for a setback, with its newline.
pub(crate) fn setback_line(setback: &Setback) -> &str
    ensures { result.now ≡ setback_line setback.now }
{
    match setback {
        Setback::DeviceRefused(line) => line.as_str(),
        Setback::FileFault => "am_audit: file fault\n",
        Setback::NoMemory => "am_audit: out of memory\n",
    }
}
