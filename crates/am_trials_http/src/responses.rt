//! The bytes of responses that no session of a reasonable length gets: when a history is full, and when memory runs
//! out.
mod no_memory;

use self::no_memory::refused_for_memory;
use am_http::response_bytes;
use am_types::{Reply, Rule, Shown};
use std::alloc::Global;
use std::process::Abort;
use std::test::Fail;

/// The response to this reply at this place is these bytes.
fn shows(
    rt: &impl Abort,
    alloc: Global,
    at: u64,
    stored: bool,
    reply: Reply,
    expected: &str,
) -> Result<(), Fail> {
    let shown = Shown { at, stored, reply };
    let bytes = response_bytes(alloc, &shown);
    drop(shown);
    assert_eq!(rt; bytes?.as_slice(), expected.as_bytes(), "{expected}");
    Ok(())
}

#[test]
fn shows_a_full_history(rt: HostRuntime) -> Result<(), Fail> {
    let alloc = rt.alloc();
    shows(
        &rt,
        alloc,
        65536,
        false,
        Reply::Refused(Rule::HistoryFull),
        "HTTP/1.1 429 Too Many Requests\r\nContent-Type: application/json\r\nContent-Length: 24\r\nAM-At: 65536\r\nAM-Stored: 0\r\n\r\n{\"error\":\"history_full\"}",
    )
}

#[test]
fn answers_without_memory(rt: HostRuntime) -> Result<(), Fail> {
    let sink = refused_for_memory(rt.alloc())?;
    assert_eq!(rt;
        sink.taken(),
        b"HTTP/1.1 507 Insufficient Storage\r\nContent-Type: application/json\r\nContent-Length: 21\r\nAM-Stored: 0\r\n\r\n{\"error\":\"no_memory\"}".as_slice()
    );
    Ok(())
}
