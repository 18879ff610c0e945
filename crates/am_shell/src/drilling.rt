//! A generated device and generated requests, and what is counted of them.
ghost use Rattle.std.specs.Prelude.{◌≡◌, IfOk};
ghost use Rattle.am_words.specs.Ranges.{IsDrillInRange};
ghost use Rattle.am_console.specs.Telling.{voices_of};
ghost use Rattle.am_drill.specs.Drills.{drilled};
ghost use Rattle.am_drill.specs.Tallies.{printed};
ghost use Rattle.am_shell.specs.Drillings.{RunsDrill};

use crate::telling::{print, tell_no_memory};
use am_drill::drill;
use am_outside::Sink;
use am_types::{NoMemory, Text};
use am_words::DrillWords;
use std::alloc::Global;

/// Runs the drill that is asked for, in memory, and prints how often each status came and how long the history is.
/// Answers the status, whose line it writes on the errors.
pub fn run_drill<W: Sink, E: Sink>(
    alloc: Global,
    asked: DrillWords,
    output: &mut W,
    errors: &mut E,
) -> u8
    requires range { IsDrillInRange asked }
    ensures { RunsDrill asked
        (voices_of W.Sink E.Sink output.old errors.old)
        (voices_of W.Sink E.Sink output.new errors.new)
        result }
{
    match counts(alloc, asked) {
        Ok(text) => print(text.as_str().as_bytes(), output, errors),
        Err(NoMemory) => tell_no_memory(errors),
    }
}

// The lines of what is counted.
fn counts(alloc: Global, asked: DrillWords) -> Result<Text, NoMemory>
    requires range { IsDrillInRange asked }
    ensures { IfOk result (λ text. text ≡ printed (drilled asked.from asked.packages asked.requests)) }
{
    let tally = drill(alloc, asked.from, asked.packages, asked.requests)?;
    tally.text(alloc)
}
