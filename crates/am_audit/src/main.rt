//! The checker of transcripts, as a program.
#![tactic(auto)]

use am_audit_shell::{audit, tell_no_memory};
use am_host::{Counted, SystemFiles, read_words};
use std::process::ExitCode;

fn main(rt: HostRuntime) -> ExitCode {
    let mut files = SystemFiles::new(rt);
    let mut output = Counted::new(rt.stdout());
    let mut errors = Counted::new(rt.stderr());
    ExitCode::from(match read_words(&rt) {
        Err(_) => tell_no_memory(&mut errors),
        Ok(words) => audit(
            rt.alloc(),
            words.as_slice(),
            &mut files,
            &mut output,
            &mut errors,
        ),
    })
}
