//! The activity manager of a simulated Android device, as a program.
#![tactic(auto)]

use am_host::{Counted, SystemClock, SystemFiles, read_words};
use am_keeper_files::SqlStore;
use am_shell::{run_keyed, tell_no_memory};
use am_tcp::TcpNetwork;
use std::hash::RandomState;
use std::process::ExitCode;

fn main(rt: HostRuntime) -> ExitCode {
    let mut files = SystemFiles::new(rt);
    let mut input = Counted::new(rt.stdin());
    let mut output = Counted::new(rt.stdout());
    let mut errors = Counted::new(rt.stderr());
    let mut network = TcpNetwork::new(rt, rt.alloc());
    let mut store = SqlStore::new(rt);
    let mut clock = SystemClock::new(rt);
    ExitCode::from(match read_words(&rt) {
        Err(_) => tell_no_memory(&mut errors),
        Ok(words) => run_keyed(
            &rt,
            rt.alloc(),
            words.as_slice(),
            &mut files,
            &mut input,
            &mut output,
            &mut errors,
            &mut network,
            &mut store,
            &mut clock,
            // Without random bytes, what clients choose is hashed in a way that everyone can foresee.
            RandomState::new(&rt).ok(),
        ),
    })
}
