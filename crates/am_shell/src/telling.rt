//! Printing, and what is told when that fails or when memory runs out for the words.
ghost use Rattle.am_http.specs.Links.{sink_of};
ghost use Rattle.am_console.specs.Telling.{Prints, Tells, voices_of};
ghost use Rattle.am_shell.specs.Lines.{no_memory_line, write_line};

use am_console::tell;
use am_outside::Sink;

/// Prints a text on the output, and answers the status: 0, or 6 if that fails, with its line on the errors.
pub fn print<W: Sink, E: Sink>(text: &[u8], output: &mut W, errors: &mut E) -> u8
    ensures { Prints write_line text.now 0
        (voices_of W.Sink E.Sink output.old errors.old) (voices_of W.Sink E.Sink output.new errors.new) result }
{
    am_console::print("am: write fault\n", text, 0, output, errors)
}

/// Writes on the errors that memory ran out before the words were read, and answers the status: 8, or 6 if the line
/// couldn't be written.
pub fn tell_no_memory<E: Sink>(errors: &mut E) -> u8
    ensures { Tells no_memory_line 8 (sink_of E.Sink errors.old) (sink_of E.Sink errors.new) result }
{
    tell("am: out of memory\n", 8, errors)
}
