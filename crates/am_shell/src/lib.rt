//! The program behind its `main`: words, the device file, the kept rows, and what the words ask for: a session, a
//! serving over a network, a drill, or what a package sees.
#![tactic(auto)]

mod clocks;
mod device;
mod drilling;
mod kept;
mod program;
mod question;
mod serving;
mod session;
mod telling;
mod undone;

pub use am_network::{Acceptor, GatePlan, LinkPlan, ListenFail, MemoryNetwork, Network};
pub use am_outside::{
    Clock, FileBytes, FileFail, Files, MemoryFiles, MemorySink, MemorySource, Sink, Source,
    StepClock,
};
pub use am_workers::{Worked, work};
pub use program::{run, run_keyed};
pub use telling::tell_no_memory;
