//! What a drill counts.
ghost use Rattle.std.specs.Prelude.{◌≡◌, IfOk, string_bytes};
ghost use Rattle.am_drill.specs.Tallies.{all_statuses, line_of, lines_of, printed, times};

use am_types::{List, NoMemory, Text};
use std::alloc::{AllocError, Global};

/// The least status that is looked for.
const LEAST: u16 = 100;

/// The number above the greatest status that is looked for.
const END: u16 = 600;

/// What a drill counts: the status of each reply, in the order of the requests, and how many entries the history has at
/// the end.
#[derive(Drop)]
pub struct Tally {
    pub statuses: List<u16>,
    pub history: u64,
}

impl Tally {
    /// A line for each status that came, in rising order, with how often it came; then a line with the length of the
    /// history.
    ///
    /// # Errors
    ///
    /// `NoMemory` if memory runs out.
    #[tactic(auto, unfolding(crate::specs::Tallies::printed))]
    pub fn text(&self, alloc: Global) -> Result<Text, NoMemory>
        ensures { IfOk result (λ text. text ≡ printed self.now) }
    {
        let lines = lines(alloc, self.statuses.as_slice())?;
        let lines = lines.as_str();
        let history = self.history;
        Ok(Text::new(format!(in alloc; "{lines}history {history}\n")?))
    }
}

// The lines of the statuses that came.
fn lines(alloc: Global, statuses: &[u16]) -> Result<String, AllocError>
    ensures { IfOk result (λ lines. string_bytes lines ≡ lines_of statuses.now all_statuses) }
{
    let mut lines = String::new(alloc);
    for status in LEAST..END {
        lines.push_str(line(alloc, statuses, status)?.as_str())?;
    }
    Ok(lines)
}

// The line of a status, or nothing if it never came.
#[tactic(auto, unfolding(crate::specs::Tallies::line_of))]
fn line(alloc: Global, statuses: &[u16], status: u16) -> Result<String, AllocError>
    ensures { IfOk result (λ line. string_bytes line ≡ line_of statuses.now status) }
{
    let times = times(statuses, status);
    if times == 0 {
        return Ok(String::new(alloc));
    }
    format!(in alloc; "{status} {times}\n")
}

// How often a status came.
fn times(statuses: &[u16], status: u16) -> usize
    ensures { result ≡ times statuses.now status }
{
    statuses.iter().filter(|came| **came == status).count()
}
