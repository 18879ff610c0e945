//! Bodies of installations that are longer than the body of a frame.
use am_trials_words::{spelled_out, try_each};
use am_types::{Request, Unmade};
use am_wire::read_request;
use am_wire_routes::Endpoint;
use std::alloc::{AllocError, Global};
use std::process::Abort;
use std::test::Fail;

/// Bodies, and what becomes of each. `<3:a>` stands for `aaa`.
const BODIES: &str = r#"{"manifest":"<65536:a>","key":"k"} -> <65536:a> k
{"manifest":"<65537:a>","key":"k"} -> too_long manifest
{"manifest":"<65535:a>é","key":1} -> too_long manifest"#;

/// The manifest's text and the key.
fn shown(alloc: Global, request: &Request) -> Result<String, AllocError> {
    match request {
        Request::Install { text, key } => format!(in alloc; "{} {}", text.as_str(), key.as_str()),
        _ => String::from_str(alloc, "another request"),
    }
}

/// What becomes of a body: the printed fault, or the installation that was read.
fn outcome(alloc: Global, body: &[u8]) -> Result<String, AllocError> {
    match read_request(alloc, Endpoint::Install, body) {
        Ok(request) => {
            let words = shown(alloc, &request);
            drop(request);
            words
        }
        Err(Unmade::Fault(fault)) => {
            let words = fault.to_string(alloc);
            drop(fault);
            words
        }
        Err(Unmade::NoMemory) => Err(AllocError),
    }
}

fn try_row(rt: &impl Abort, alloc: Global, row: &str) -> Result<(), Fail> {
    let (body, wanted) = row.split_once(" -> ").ok_or("an arrow")?;
    let body = spelled_out(alloc, body)?;
    let found = outcome(alloc, body.as_bytes())?;
    let wanted = spelled_out(alloc, wanted)?;
    assert_eq!(rt; found.as_str(), wanted.as_str(), "{row}");
    Ok(())
}

#[test]
fn installations_have_manifests_of_65_536_bytes(rt: HostRuntime) -> Result<(), Fail> {
    try_each(BODIES, 3, |row| try_row(&rt, rt.alloc(), row))
}
