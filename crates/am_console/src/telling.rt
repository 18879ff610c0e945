//! What a program tells on its output and its errors, and the status that goes with it.
ghost use Rattle.am_http.specs.Links.{sink_of};
ghost use Rattle.am_console.specs.Telling.{Prints, Tells, voices_of};

use am_http::write_all;
use am_outside::{Failed, Sink};

/// Writes a line on the errors, and answers the status that goes with it, or 6 if the line couldn't be written.
pub fn tell<E: Sink>(line: &str, status: u8, errors: &mut E) -> u8
    ensures { Tells line.now status (sink_of E.Sink errors.old) (sink_of E.Sink errors.new) result }
{
    match write_all(errors, line.as_bytes()) {
        Ok(()) => status,
        Err(Failed) => 6,
    }
}

/// Prints a text on the output, and answers the status that goes with it, or 6 if that fails, with this complaint on
/// the errors.
pub fn print<W: Sink, E: Sink>(
    complaint: &str,
    text: &[u8],
    status: u8,
    output: &mut W,
    errors: &mut E,
) -> u8
    ensures { Prints complaint.now text.now status
        (voices_of W.Sink E.Sink output.old errors.old) (voices_of W.Sink E.Sink output.new errors.new) result }
{
    match write_all(output, text) {
        Ok(()) => status,
        Err(Failed) => tell(complaint, 6, errors),
    }
}
