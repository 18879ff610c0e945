//! Which components a package sees: a question about a device, asked on the input.
ghost use Rattle.std.specs.Prelude.{◌≡◌, ◌-◌, ◌≤◌, ◌<◌, IfOk, IfErr, Ok, length};
ghost use Rattle.am_console.specs.Files.{shelf_of};
ghost use Rattle.am_http.specs.Links.{source_of};
ghost use Rattle.am_model.specs.Sound.{IsSound};
ghost use Rattle.am_visible.specs.Answers.{answer_to};
ghost use Rattle.am_console.specs.Telling.{voices_of};
ghost use Rattle.am_shell.specs.Questions.{FailsToRead, Happens, IsNoReply, IsRead, ReadsMore, RunsQuestion, most_read, query_line};
ghost use Rattle.am_shell.specs.World.{World, with_voices};

use crate::device::read_described_file;
use crate::telling::print;
use crate::undone::Undone;
use am_console::{Setback, tell};
use am_installed::caller_named;
use am_manifest_queries::Described;
use am_outside::{Files, Sink, Source};
use am_types::{NoMemory, Text, Unmade};
use am_visible::answer;
use am_wire_fields::WireFault;
use am_words::QuestionWords;
use std::alloc::Global;

/// The most bytes of the input that are read, one more than a query's body may have.
const MOST_READ: usize = 65_537;

/// How many bytes are read at once.
const PIECE: usize = 4096;

/// Runs the question that is asked: reads the device file with the queries of its packages, then the input, to its end
/// or as far as a query's body goes and one byte more, and prints the components that the package sees of those that
/// the query finds. Answers the status, whose line it writes on the errors.
pub fn run_question<F: Files, S: Source, W: Sink, E: Sink>(
    alloc: Global,
    asked: QuestionWords,
    files: &mut F,
    input: &mut S,
    output: &mut W,
    errors: &mut E,
) -> u8
    ensures { (before after : World) → RunsQuestion asked
        (record (with_voices before (voices_of W.Sink E.Sink output.old errors.old)) {
          files = shelf_of F.Files files.old;
          input = source_of S.Source input.old;
        })
        (record (with_voices after (voices_of W.Sink E.Sink output.new errors.new)) {
          files = shelf_of F.Files files.new;
          input = source_of S.Source input.new;
        })
        result }
{
    match answer_question(alloc, &asked, files, input) {
        Ok(text) => print(text.as_str().as_bytes(), output, errors),
        Err(why) => tell(why.line(), why.status(), errors),
    }
}

// All except the output and the line on the errors.
fn answer_question<F: Files, S: Source>(
    alloc: Global,
    asked: &QuestionWords,
    files: &mut F,
    input: &mut S,
) -> Result<Text, Undone>
    ensures { (before after : World) → Happens result asked.now
        (record before { files = shelf_of F.Files files.old; input = source_of S.Source input.old })
        (record after { files = shelf_of F.Files files.new; input = source_of S.Source input.new }) }
{
    let known = read_described_file(alloc, files, &asked.device)?;
    let Some(caller) = caller_named(&known.device.packages, &asked.package) else {
        return Err(Undone::NoPackage);
    };
    let bytes = read_input(alloc, input)?;
    answer_to(alloc, known, caller, bytes.as_slice())
}

// The answer to the caller, or the line that names the fault of what it asks.
fn answer_to(alloc: Global, known: Described, caller: u32, bytes: &[u8]) -> Result<Text, Undone>
    requires sound { IsSound known.device }
    ensures answered { IfOk result (λ text. answer_to known caller bytes.now ≡ Ok text) }
    ensures failed { IfErr result (λ why. IsNoReply why (answer_to known caller bytes.now)) }
{
    match answer(alloc, known, caller, bytes) {
        Ok(text) => Ok(text),
        Err(Unmade::NoMemory) => Err(Undone::Setback(Setback::NoMemory)),
        Err(Unmade::Fault(fault)) => Err(Undone::QueryRefused(query_line(alloc, &fault)?)),
    }
}

// The line that names the fault.
fn query_line(alloc: Global, fault: &WireFault) -> Result<Text, NoMemory>
    ensures { IfOk result (λ line. line ≡ query_line fault.now) }
{
    Ok(Text::new(format!(in alloc; "am: query refused: {fault}\n")?))
}

// Reads the input to its end, or as far as it is read at most.
fn read_input<S: Source>(alloc: Global, input: &mut S) -> Result<Vec<u8>, Undone>
    ensures read { IfOk result (λ bytes. IsRead
        (source_of S.Source input.old) (source_of S.Source input.new) bytes.items) }
    ensures failed { IfErr result (λ why. FailsToRead why most_read
        (source_of S.Source input.old) (source_of S.Source input.new)) }
{
    let mut bytes = Vec::new(alloc);
    while bytes.len() < MOST_READ {
        if read_piece(input, &mut bytes)? == 0 {
            return Ok(bytes);
        }
    }
    Ok(bytes)
}

// Reads once, after the bytes that were read, and answers how many came: 0 only at the end.
fn read_piece<S: Source>(input: &mut S, bytes: &mut Vec<u8>) -> Result<usize, Undone>
    requires room { length bytes.old.items < MOST_READ }
    ensures more { IfOk result (λ count. ReadsMore
        (source_of S.Source input.old) (source_of S.Source input.new) bytes.old.items bytes.new.items count) }
    ensures never_falls { S.faults input.old ≤ S.faults input.new }
    ensures failed { IfErr result (λ why. FailsToRead why (most_read - length bytes.old.items)
        (source_of S.Source input.old) (source_of S.Source input.new)) }
{
    let mut piece = [0u8; PIECE];
    let room = (MOST_READ - bytes.len()).min(PIECE);
    let Ok(count) = input.read(&mut piece[..room]) else {
        return Err(Undone::InputFault);
    };
    let Ok(()) = bytes.extend_from_slice(&piece[..count]) else {
        return Err(Undone::Setback(Setback::NoMemory));
    };
    Ok(count)
}
