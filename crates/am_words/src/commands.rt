//! The commands.
ghost use Rattle.std.specs.Prelude.{◌≡◌, Err, IfOk, IsTrue};
ghost use Rattle.clap.specs.Words.{first_value, found_of};
ghost use Rattle.am_words.specs.Grammar.{begins_with_command, command_of, drill_names, drill_of, read_command, serve_names, serve_of, session_names, session_of, visible_names, visible_of};
ghost use Rattle.am_words.specs.Answers.{Reads, ReadsInPlace};
ghost use Rattle.am_words.specs.Ranges.{IsInRange, ReadsCommand, ReadsWithDevice};

use crate::options::{borrowed, read_options};
use crate::values::{
    clock_of, moment_of, number_in, optional_number_in, optional_path_of, path_of,
};
use crate::{Command, DrillWords, QuestionWords, ServingWords, SessionWords, WordsFault};
use am_types::Text;
use clap::ArgMatches;
use std::alloc::Global;

static SESSION: [&str; 4] = ["device", "store", "at", "step"];

static SERVE: [&str; 6] = ["device", "port", "workers", "store", "connections", "at"];

static DRILL: [&str; 3] = ["from", "packages", "requests"];

static VISIBLE: [&str; 2] = ["device", "as"];

/// The session that the values of its options make.
#[tactic(auto, unfolding(crate::specs::Grammar::session_of))]
fn session_of(alloc: Global, matches: &ArgMatches<'_>) -> Result<Command, WordsFault>
    ensures { ReadsWithDevice result session_of (first_value (found_of matches.now)) }
{
    let device = path_of(alloc, matches.get_str("device"))?;
    let store = optional_path_of(alloc, matches.get_str("store"))?;
    let clock = clock_of(matches.get_str("at"), matches.get_str("step"))?;
    Ok(Command::Session(SessionWords {
        device,
        store,
        clock,
    }))
}

/// The service that the values of its options make.
#[tactic(auto, unfolding(crate::specs::Grammar::serve_of))]
fn serve_of(alloc: Global, matches: &ArgMatches<'_>) -> Result<Command, WordsFault>
    ensures { ReadsWithDevice result serve_of (first_value (found_of matches.now)) }
{
    let device = path_of(alloc, matches.get_str("device"))?;
    let port = number_in(1, 65535, matches.get_str("port"))?;
    let workers = number_in(1, 64, matches.get_str("workers"))?;
    let store = optional_path_of(alloc, matches.get_str("store"))?;
    let connections = optional_number_in(1, 1000000, matches.get_str("connections"))?;
    let at = moment_of(matches.get_str("at"))?;
    Ok(Command::Serve(ServingWords {
        device,
        port: port as u16,
        workers: workers as u32,
        store,
        connections,
        at,
    }))
}

/// The drill that the values of its options make.
#[tactic(auto, unfolding(crate::specs::Grammar::drill_of))]
fn drill_of(matches: &ArgMatches<'_>) -> Result<Command, WordsFault>
    ensures read { ReadsInPlace result (drill_of (first_value (found_of matches.now))) }
    ensures range { IfOk result IsInRange }
{
    let from = number_in(0, 18446744073709551615, matches.get_str("from"))?;
    let packages = number_in(1, 256, matches.get_str("packages"))?;
    let requests = number_in(0, 65535, matches.get_str("requests"))?;
    Ok(Command::Drill(DrillWords {
        from,
        packages: packages as u32,
        requests: requests as u32,
    }))
}

/// The question that the values of its options make.
#[tactic(auto, unfolding(crate::specs::Grammar::visible_of))]
fn visible_of(alloc: Global, matches: &ArgMatches<'_>) -> Result<Command, WordsFault>
    ensures { ReadsWithDevice result visible_of (first_value (found_of matches.now)) }
{
    let device = path_of(alloc, matches.get_str("device"))?;
    let Some(package) = matches.get_str("as") else {
        return Err(WordsFault::Usage);
    };
    let package = Text::of(alloc, package)?;
    Ok(Command::Visible(QuestionWords { device, package }))
}

// What is made of the values that the words give to the options with these names.
macro_rules! command {
    ($alloc:ident, $words:ident, $names:ident, $matches:ident => $made:expr) => {{
        let words = borrowed($alloc, $words)?;
        let $matches = read_options($alloc, $names.as_slice(), words.as_slice())?;
        $made
    }};
}

/// The session that the words ask for.
fn session(alloc: Global, words: &[Text]) -> Result<Command, WordsFault>
    ensures { ReadsCommand result (command_of session_names session_of words.now) }
{
    command!(alloc, words, SESSION, matches => session_of(alloc, &matches))
}

/// The service that the words ask for.
fn serve(alloc: Global, words: &[Text]) -> Result<Command, WordsFault>
    ensures { ReadsCommand result (command_of serve_names serve_of words.now) }
{
    command!(alloc, words, SERVE, matches => serve_of(alloc, &matches))
}

/// The drill that the words ask for.
fn drill(alloc: Global, words: &[Text]) -> Result<Command, WordsFault>
    ensures { ReadsCommand result (command_of drill_names drill_of words.now) }
{
    command!(alloc, words, DRILL, matches => drill_of(&matches))
}

/// The question that the words ask.
fn visible(alloc: Global, words: &[Text]) -> Result<Command, WordsFault>
    ensures { ReadsCommand result (command_of visible_names visible_of words.now) }
{
    command!(alloc, words, VISIBLE, matches => visible_of(alloc, &matches))
}

/// The command that the words after the program's name ask for.
///
/// # Errors
///
/// `Usage` if the words aren't in the grammar, `NoMemory` if memory runs out, which can only happen after a command's
/// name.
#[tactic(auto, unfolding(crate::specs::Grammar::read_command, crate::specs::Grammar::named))]
pub fn read_command(alloc: Global, words: &[Text]) -> Result<Command, WordsFault>
    ensures read { Reads result (read_command words.now) }
    ensures range { IfOk result IsInRange }
    ensures memory { result ≡ Err WordsFault.NoMemory → IsTrue (begins_with_command words.now) }
{
    let [name, options @ ..] = words else {
        return Err(WordsFault::Usage);
    };
    match name.as_str() {
        "session" => session(alloc, options),
        "serve" => serve(alloc, options),
        "drill" => drill(alloc, options),
        "visible" => visible(alloc, options),
        _ => Err(WordsFault::Usage),
    }
}
