//! What the files other than the device's hold, and whether it is within its limits.
ghost use Rattle.std.specs.Prelude.{◌≡◌, ◌≤◌, IfOk, IfErr};
ghost use Rattle.am_console.specs.Files.{shelf_of};
ghost use Rattle.am_audit_shell.specs.Contents.{over_limit};
ghost use Rattle.am_audit_shell.specs.Held.{FailsToRead, ReadsAll, contents_of};
ghost use Rattle.am_audit_shell.specs.Naming.{named_at};

use crate::finding::Part;
use crate::words::NamedFiles;
use am_audit_history::lines_in;
use am_console::Setback;
use am_outside::Files;

/// The most bytes that a file may have.
const MOST_BYTES: usize = 16_777_216;

/// The most lines that a history may have.
const MOST_LINES: usize = 65_536;

/// What the files hold.
#[derive(Drop)]
pub(crate) struct Held {
    pub(crate) history: Vec<u8>,
    pub(crate) frames: Vec<u8>,
    pub(crate) responses: Vec<u8>,
}

/// Reads the files other than the device's, in the order of the words.
pub(crate) fn read_files<F: Files>(files: &mut F, named: NamedFiles<'_>) -> Result<Held, Setback>
    ensures read { IfOk result (λ held. ReadsAll (F.files files.old) (named_at named.entry) (contents_of held)) }
    ensures failed { IfErr result (λ setback. FailsToRead setback
        (shelf_of F.Files files.old) (shelf_of F.Files files.new) (named_at named.entry)) }
    ensures never_falls { F.faults files.old ≤ F.faults files.new }
    ensures files { F.files files.new ≡ F.files files.old }
{
    let history = files.read_file(named.history)?;
    let frames = files.read_file(named.frames)?;
    let responses = files.read_file(named.responses)?;
    Ok(Held {
        history,
        frames,
        responses,
    })
}

/// The first file that is over its limits. Takes no memory.
pub(crate) fn over_limit(held: &Held) -> Option<Part>
    ensures { result ≡ over_limit (contents_of held.now) }
{
    if held.history.len() > MOST_BYTES || lines_in(&held.history) > MOST_LINES {
        Some(Part::History)
    } else if held.frames.len() > MOST_BYTES {
        Some(Part::Frames)
    } else if held.responses.len() > MOST_BYTES {
        Some(Part::Responses)
    } else {
        None
    }
}
