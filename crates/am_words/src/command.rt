ghost use Rattle.std.specs.Prelude.{◌≡◌};

use am_types::Text;
use std::alloc::AllocError;

/// A command, with the values of its options.
#[derive(Drop)]
pub enum Command {
    /// One session over the standard streams.
    Session(SessionWords),
    /// Sessions over connections.
    Serve(ServingWords),
    /// A generated device and generated requests.
    Drill(DrillWords),
    /// The components that a package may see.
    Visible(QuestionWords),
}

/// The session that words ask for.
#[derive(Drop)]
pub struct SessionWords {
    /// The device file.
    pub device: Text,
    /// The place of the kept rows.
    pub store: Option<Text>,
    /// The session's own clock, if it isn't the machine's.
    pub clock: Option<StepWords>,
}

/// The serving that words ask for.
#[derive(Drop)]
pub struct ServingWords {
    /// The device file.
    pub device: Text,
    /// The port, from 1.
    pub port: u16,
    /// How many workers there are, from 1 to 64.
    pub workers: u32,
    /// The place of the kept rows.
    pub store: Option<Text>,
    /// How many links each worker serves before it ends, from 1 to 1,000,000.
    pub connections: Option<u32>,
    /// The moment at which the clock of each worker stays, in milliseconds, if it isn't the machine's.
    pub at: Option<u64>,
}

/// The drill that words ask for.
#[derive(Drop)]
pub struct DrillWords {
    /// The number that decides all draws.
    pub from: u64,
    /// How many packages the device has, from 1 to 256.
    pub packages: u32,
    /// How many requests there are, up to 65,535.
    pub requests: u32,
}

/// The question that words ask.
#[derive(Drop)]
pub struct QuestionWords {
    /// The device file.
    pub device: Text,
    /// The package that asks; `android` is the system's.
    pub package: Text,
}

/// A clock that begins at a moment and moves on by a step at each call, in milliseconds.
#[derive(Drop)]
pub struct StepWords {
    pub at: u64,
    pub step: u64,
}

/// Why words aren't a command.
#[derive(Drop)]
pub enum WordsFault {
    /// They aren't in the grammar.
    Usage,
    /// Memory ran out.
    NoMemory,
}

impl From<AllocError> for WordsFault {
    ghost use Rattle.am_words.specs.declared.command.WordsFault.TheVariants.{NoMemory};

    ghost from_gives = { λ _ e. e ≡ NoMemory };

    fn from(_error: AllocError) -> WordsFault {
        WordsFault::NoMemory
    }
}
