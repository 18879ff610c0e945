//! Why what the words ask for wasn't done, and the line and the status that tell it.
ghost use Rattle.std.specs.Prelude.{◌≡◌};
ghost use Rattle.am_shell.specs.Lines.{line_of, status_of};

use am_console::Setback;
use am_types::{NoMemory, Text};

/// Why what the words ask for wasn't done.
#[derive(Drop)]
pub enum Undone {
    /// The device file describes nothing, or memory ran out.
    Setback(Setback),
    /// The store of the kept rows failed.
    StoreFault,
    /// A kept row is refused, and this line names its package.
    RowsRefused(Text),
    /// The network failed to listen.
    NetworkFault,
    /// No package of the device has the name that asks.
    NoPackage,
    /// Reading the input failed.
    InputFault,
    /// What is asked isn't a query, and this line names its first fault.
    QueryRefused(Text),
}

impl From<Setback> for Undone {
    ghost use Rattle.std.specs.Prelude.{◌≡◌};
    ghost use Rattle.am_shell.specs.declared.undone.Undone.TheVariants as undone;

    ghost from_gives = { λ setback why. why ≡ undone.Setback setback };

    fn from(setback: Setback) -> Undone {
        Undone::Setback(setback)
    }
}

impl From<NoMemory> for Undone {
    ghost use Rattle.std.specs.Prelude.{◌≡◌};
    ghost use Rattle.am_console.specs.declared.setback.Setback.TheVariants as setbacks;
    ghost use Rattle.am_shell.specs.declared.undone.Undone.TheVariants as undone;

    ghost from_gives = { λ _ why. why ≡ undone.Setback setbacks.NoMemory };

    fn from(_: NoMemory) -> Undone {
        Undone::Setback(Setback::NoMemory)
    }
}

impl Undone {
    /// The line that tells it, with its newline.
    pub fn line(&self) -> &str
        ensures { result.now ≡ line_of self.now }
    {
        match self {
            Undone::Setback(Setback::DeviceRefused(line)) => line.as_str(),
            Undone::Setback(Setback::FileFault) => "am: file fault\n",
            Undone::Setback(Setback::NoMemory) => "am: out of memory\n",
            Undone::StoreFault => "am: store fault\n",
            Undone::RowsRefused(line) => line.as_str(),
            Undone::NetworkFault => "am: network fault\n",
            Undone::NoPackage => "am: no package\n",
            Undone::InputFault => "am: read fault\n",
            Undone::QueryRefused(line) => line.as_str(),
        }
    }

    /// The status that tells it.
    pub fn status(&self) -> u8
        ensures { result ≡ status_of self.now }
    {
        match self {
            Undone::Setback(setback) => setback.status(),
            Undone::StoreFault => 7,
            Undone::RowsRefused(_) => 10,
            Undone::NetworkFault => 9,
            Undone::NoPackage => 12,
            Undone::InputFault => 5,
            Undone::QueryRefused(_) => 11,
        }
    }
}
