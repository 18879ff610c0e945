//! Connections over a device whose packages declare nothing: in pieces, cut off anywhere, and with a fault at each read
//! or write.
ghost use Rattle.std.specs.Prelude.{◌<◌};

use am_trials_runs::{Left, Outside, QUIET, Runtime, session_over};
use am_trials_spelling::EMPTY;
use am_types::NoMemory;
use std::alloc::Global;
use std::process::Abort;
use std::test::Fail;

/// Everything comes and goes at once.
const WHOLE: Outside = Outside {
    most: 1_000_000,
    failing: "",
    call: 1,
    at: 0,
    step: 1,
};

/// Each byte comes and goes alone.
const BYTES: Outside = Outside {
    most: 1,
    failing: "",
    call: 1,
    at: 0,
    step: 1,
};

/// A query, as curl sends it.
const QUERY: &[u8] =
    b"POST /v1/query HTTP/1.1\r\nHost: 127.0.0.1:8080\r\nUser-Agent: curl/7.88.1\r\nAccept: */*\r\nAM-Key: k1\r\nContent-Type: application/json\r\nContent-Length: 45\r\n\r\n{\"intent\":{\"action\":\"a.X\"},\"kind\":\"activity\"}";

const ANSWER: &[u8] =
    b"HTTP/1.1 200 OK\r\nContent-Type: application/json\r\nContent-Length: 17\r\nAM-At: 0\r\nAM-Stored: 0\r\n\r\n{\"components\":[]}";

/// The same bytes twice.
fn twice(alloc: Global, bytes: &[u8]) -> Result<Vec<u8>, NoMemory> {
    let mut both = Vec::new(alloc);
    both.extend_from_slice(bytes)?;
    both.extend_from_slice(bytes)?;
    Ok(both)
}

/// A session over the device with this input.
fn serve(
    rt: &impl Runtime,
    alloc: Global,
    input: &[u8],
    outside: &Outside,
) -> Result<Left, NoMemory>
    requires { 0 < outside.now.most }
{
    session_over(rt, alloc, EMPTY, input, outside)
}

/// How the session ended, by what it wrote to its errors.
fn end(errors: &[u8]) -> &'static str {
    match errors {
        b"" => "ended",
        b"am: session ended: cut\n" => "cut",
        b"am: read fault\n" => "read fault",
        b"am: write fault\n" => "write fault",
        _ => "another end",
    }
}

/// A session with this input ends so after these bytes.
fn try_session(
    rt: &(impl Runtime + Abort),
    alloc: Global,
    input: &[u8],
    outside: &Outside,
    wanted: (&'static str, &[u8]),
) -> Result<(), Fail>
    requires { 0 < outside.now.most }
{
    let left = serve(rt, alloc, input, outside)?;
    assert_eq!(rt; end(left.errors.taken()), wanted.0);
    assert_eq!(rt; left.output.taken(), wanted.1);
    Ok(())
}

/// Two queries are answered.
fn try_twice(rt: &(impl Runtime + Abort), alloc: Global, outside: &Outside) -> Result<(), Fail>
    requires { 0 < outside.now.most }
{
    let (input, output) = (twice(alloc, QUERY)?, twice(alloc, ANSWER)?);
    let wanted = ("ended", output.as_slice());
    try_session(rt, alloc, input.as_slice(), outside, wanted)
}

#[test]
fn answers_in_any_pieces(rt: HostRuntime) -> Result<(), Fail> {
    try_twice(&rt, rt.alloc(), &BYTES)?;
    try_twice(&rt, rt.alloc(), &QUIET)?;
    try_twice(&rt, rt.alloc(), &WHOLE)
}

#[test]
fn cut_anywhere(rt: HostRuntime) -> Result<(), Fail> {
    for n in 1..QUERY.len() {
        try_session(&rt, rt.alloc(), &QUERY[..n], &WHOLE, ("cut", b""))?;
    }
    Ok(())
}

/// Two queries end so after so many bytes of their answers if that call of the object fails.
fn try_fault(
    rt: &(impl Runtime + Abort),
    alloc: Global,
    failing: &'static str,
    call: u32,
    wanted: (&'static str, usize),
) -> Result<(), Fail> {
    let (input, output) = (twice(alloc, QUERY)?, twice(alloc, ANSWER)?);
    let written = output.as_slice().get(..wanted.1).ok_or("the output")?;
    let outside = Outside {
        failing,
        call,
        ..BYTES
    };
    try_session(rt, alloc, input.as_slice(), &outside, (wanted.0, written))
}

#[test]
fn each_read_fails(rt: HostRuntime) -> Result<(), Fail> {
    let mut number: u32 = 0;
    for answered in 0..3usize {
        let reads = if answered < 2 { QUERY.len() } else { 1 };
        let wanted = ("read fault", ANSWER.len().saturating_mul(answered));
        for _ in 0..reads {
            number = number.wrapping_add(1);
            try_fault(&rt, rt.alloc(), "input", number, wanted)?;
        }
    }
    assert_eq!(rt;
        number as usize,
        QUERY.len().wrapping_mul(2).wrapping_add(1)
    );
    Ok(())
}

#[test]
fn each_write_fails(rt: HostRuntime) -> Result<(), Fail> {
    let mut number: u32 = 0;
    for written in 0..ANSWER.len().wrapping_mul(2) {
        number = number.wrapping_add(1);
        try_fault(&rt, rt.alloc(), "output", number, ("write fault", written))?;
    }
    Ok(())
}
