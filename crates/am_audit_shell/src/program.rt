//! The top call.
ghost use Rattle.std.specs.Prelude.{◌≡◌, IfOk, Ok};
ghost use Rattle.am_manifest.specs.Devices.{device_of};
ghost use Rattle.am_model.specs.Sound.{IsSound};
ghost use Rattle.am_types.specs.declared.device.Device.{Device as Described};
ghost use Rattle.am_audit_answers.specs.Matching.{IsRecord};
ghost use Rattle.am_console.specs.Files.{shelf_of};
ghost use Rattle.am_console.specs.Telling.{voices_of};
ghost use Rattle.am_audit_shell.specs.Audits.{Audits, Happens, TellsFinding};
ghost use Rattle.am_audit_shell.specs.Contents.{ground_of};
ghost use Rattle.am_audit_shell.specs.Held.{ComesTo, Judges, contents_of};
ghost use Rattle.am_audit_shell.specs.Lines.{history_line, verdict_line, verdict_status};
ghost use Rattle.am_audit_shell.specs.Naming.{named_at};

use crate::contents::{Held, over_limit, read_files};
use crate::finding::{Finding, limit_line};
use crate::telling::{setback_line, tell_no_memory};
use crate::words::{NamedFiles, named_by};
use am_audit_frames::{Verdict, audit_frames};
use am_audit_history::read_history;
use am_console::{Setback, parse_device, print, tell};
use am_outside::{Files, Sink};
use am_types::{Device, Entry, NoMemory, Text};
use std::alloc::Global;

// The line that has the number of the line that is refused.
fn history_line(alloc: Global, line: u64) -> Result<Text, NoMemory>
    ensures { IfOk result (λ text. text ≡ history_line line) }
{
    Ok(Text::new(format!(in alloc; "am_audit: history refused: {line}\n")?))
}

// The line of a verdict.
fn verdict_line(alloc: Global, verdict: Verdict) -> Result<Text, NoMemory>
    ensures { IfOk result (λ text. text ≡ verdict_line verdict) }
{
    Ok(Text::new(match verdict {
        Verdict::Whole(count) => format!(in alloc; "yes {count}\n")?,
        Verdict::UpTo(count) => format!(in alloc; "no {count}\n")?,
    }))
}

// The status of a verdict.
fn verdict_status(verdict: Verdict) -> u8
    ensures { result ≡ verdict_status verdict }
{
    match verdict {
        Verdict::Whole(_) => 0,
        Verdict::UpTo(_) => 1,
    }
}

// The verdict on the transcript that the files hold, by this history of the device that the text describes.
fn judge_held(
    alloc: Global,
    text: &[u8],
    history: &[Entry],
    held: &Held,
) -> Result<Finding, Setback>
    requires record { (device : Described) → device_of text.now ≡ Ok device → IsRecord (ground_of device history.now) }
    ensures { (device : Described) → device_of text.now ≡ Ok device
        → Judges result device history.now (contents_of held.now) }
{
    let device = parse_device(alloc, "am_audit", text)?;
    let verdict = audit_frames(alloc, device, history, &held.frames, &held.responses)?;
    Ok(Finding::Judged(verdict))
}

// What is found of what the files hold, for the device that the text describes. The device is read twice, since the
// history is replayed twice.
fn audit_held(alloc: Global, device: Device, text: &[u8], held: &Held) -> Result<Finding, Setback>
    requires sound { IsSound device }
    requires described { device_of text.now ≡ Ok device }
    ensures { ComesTo result device (contents_of held.now) }
{
    if let Some(part) = over_limit(held) {
        drop(device);
        return Ok(Finding::OverLimit(part));
    }
    match read_history(alloc, device, &held.history)? {
        Ok(history) => judge_held(alloc, text, history.as_slice(), held),
        Err(line) => Ok(Finding::HistoryRefused(history_line(alloc, line)?)),
    }
}

// What is found of what the named files hold.
fn audit_files<F: Files>(
    alloc: Global,
    files: &mut F,
    named: NamedFiles<'_>,
) -> Result<Finding, Setback>
    ensures { Happens result (named_at named.entry) (shelf_of F.Files files.old) (shelf_of F.Files files.new) }
{
    let text = files.read_file(named.device)?;
    let device = parse_device(alloc, "am_audit", &text)?;
    match read_files(files, named) {
        Ok(held) => audit_held(alloc, device, &text, &held),
        Err(setback) => {
            drop(device);
            Err(setback)
        }
    }
}

// Tells what was found: prints a verdict, and writes anything else on the errors.
fn tell_finding<W: Sink, E: Sink>(
    alloc: Global,
    finding: Finding,
    output: &mut W,
    errors: &mut E,
) -> u8
    ensures { TellsFinding finding
        (voices_of W.Sink E.Sink output.old errors.old)
        (voices_of W.Sink E.Sink output.new errors.new)
        result }
{
    match finding {
        Finding::OverLimit(part) => tell(limit_line(part), 7, errors),
        Finding::HistoryRefused(line) => tell(line.as_str(), 5, errors),
        Finding::Judged(verdict) => match verdict_line(alloc, verdict) {
            Ok(line) => print(
                "am_audit: write fault\n",
                line.as_str().as_bytes(),
                verdict_status(verdict),
                output,
                errors,
            ),
            Err(NoMemory) => tell_no_memory(errors),
        },
    }
}

/// Checks a transcript against a history, and answers the status. The words are `--device`, `--history`, `--frames` and
/// `--responses`, in this order, each with a file. The files are read in that order.
///
/// | Status | When | Printed |
/// |---|---|---|
/// | 0 | the responses are those that the history has for the frames | `yes ` and the number of frames |
/// | 1 | they aren't | `no ` and the number of first frames for which they are |
/// | 2 | the words are others | |
/// | 3 | the device file is refused | |
/// | 4 | a file couldn't be read | |
/// | 5 | a line of the history isn't an entry, or its entry wouldn't be stored there | |
/// | 6 | writing failed | |
/// | 7 | a file other than the device's has more than 16,777,216 bytes, or the history more than 65,536 lines | |
/// | 8 | memory ran out | |
///
/// The first that applies of 2, 3, 7, 5, 1 and 0 is answered, unless a file fails, writing fails or memory runs out.
/// For 2 and above, the errors have a line.
pub fn audit<F: Files, W: Sink, E: Sink>(
    alloc: Global,
    words: &[Text],
    files: &mut F,
    output: &mut W,
    errors: &mut E,
) -> u8
    ensures { Audits words.now
        (record {
          files = shelf_of F.Files files.old;
          voices = voices_of W.Sink E.Sink output.old errors.old;
        })
        (record {
          files = shelf_of F.Files files.new;
          voices = voices_of W.Sink E.Sink output.new errors.new;
        })
        result }
{
    let Some(named) = named_by(words) else {
        return tell("am_audit: usage\n", 2, errors);
    };
    match audit_files(alloc, files, named) {
        Ok(finding) => tell_finding(alloc, finding, output, errors),
        Err(setback) => tell(setback_line(&setback), setback.status(), errors),
    }
}
