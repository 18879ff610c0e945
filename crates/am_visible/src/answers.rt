//! The answer to a question about a device.
ghost use Rattle.std.specs.Prelude.{◌≡◌, IfOk, IsSome, IsTrue, Err};
ghost use Rattle.am_model.specs.Boards.{board_of, caller_of};
ghost use Rattle.am_model.specs.Sound.{IsSound};
ghost use Rattle.am_types.specs.Reading.{Gives};
ghost use Rattle.am_visible.specs.Answers.{answer_to, file_answer, is_query, known_answer, line_of, reply_to};
ghost use Rattle.am_visible.specs.Faults.{Answers};

use crate::fault::VisibleFault;
use crate::question::question_of;
use crate::reply::{line_of, reply_to};
use am_installed::caller_named;
use am_manifest_queries::{Described, read_described};
use am_resolve::Board;
use am_types::{Device, List, NoMemory, Queries, Request, Text, Unmade};
use am_wire_fields::Unread;
use std::alloc::Global;

/// The line that answers the query.
fn line_to(
    alloc: Global,
    device: Device,
    queries: &List<Queries>,
    caller: u32,
    request: &Request,
) -> Result<Text, NoMemory>
    requires sound { IsSound device }
    requires query { IsTrue (is_query request.now) }
    ensures { IfOk result (λ line. line ≡ line_of (reply_to (board_of device) queries.now caller request.now)) }
{
    let board = Board::from_device(alloc, device)?;
    let reply = reply_to(alloc, &board, queries, caller, request)?;
    line_of(alloc, &reply)
}

/// Answers the caller's question about the device: the line of the components that the query finds and the caller sees,
/// as JSON in its compact form, with its newline.
///
/// # Errors
///
/// `Unmade::Fault` with `too_long body` for a text of more than 65,536 bytes, otherwise with the first fault that the
/// reader of a query's body finds; `Unmade::NoMemory` if memory runs out.
#[tactic(auto, unfolding(crate::specs::Answers::answer_to))]
pub fn answer(alloc: Global, known: Described, caller: u32, text: &[u8]) -> Result<Text, Unread>
    requires sound { IsSound known.device }
    ensures { Gives result (answer_to known caller text.now) }
{
    let request = question_of(alloc, text)?;
    let line = line_to(alloc, known.device, &known.queries, caller, &request);
    drop(request);
    match line {
        Ok(line) => Ok(line),
        Err(NoMemory) => Err(Unmade::NoMemory),
    }
}

/// Answers what the package with this name asks about a known device, as [`answer`] does.
#[tactic(auto, unfolding(crate::specs::Answers::known_answer, crate::specs::Answers::answer_of))]
fn answer_known(
    alloc: Global,
    known: Described,
    name: &Text,
    text: &[u8],
) -> Result<Text, VisibleFault>
    requires sound { IsSound known.device }
    ensures answers { Answers result (known_answer known (caller_of known.device.packages name.now) text.now) }
    ensures memory { result ≡ Err VisibleFault.NoMemory → IsSome (caller_of known.device.packages name.now) }
{
    let Some(caller) = caller_named(&known.device.packages, name) else {
        return Err(VisibleFault::NoPackage);
    };
    match answer(alloc, known, caller, text) {
        Ok(line) => Ok(line),
        Err(Unmade::Fault(fault)) => Err(VisibleFault::Query(fault)),
        Err(Unmade::NoMemory) => Err(VisibleFault::NoMemory),
    }
}

/// Answers what the package with this name asks about the device of a file, as [`answer`] does.
///
/// # Errors
///
/// In this order: `Device` with the first fault of the file, `NoPackage` if the device has no package with the name
/// and it isn't `android`, and `Query` as for [`answer`]. `NoMemory` if memory runs out.
#[tactic(auto, unfolding(crate::specs::Answers::file_answer, crate::specs::Answers::described_answer))]
pub fn answer_file(
    alloc: Global,
    file: &[u8],
    name: &Text,
    text: &[u8],
) -> Result<Text, VisibleFault>
    ensures { Answers result (file_answer file.now name.now text.now) }
{
    match read_described(alloc, file) {
        Ok(known) => answer_known(alloc, known, name, text),
        Err(Unmade::Fault(fault)) => Err(VisibleFault::Device(fault)),
        Err(Unmade::NoMemory) => Err(VisibleFault::NoMemory),
    }
}
