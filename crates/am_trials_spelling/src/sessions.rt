//! The frames of a session, and its responses.
use std::alloc::Global;
use std::test::Fail;

/// What a session is asked, and what it answers.
#[derive(Drop)]
pub struct Exchanged {
    pub calls: u32,
    pub input: String,
    pub wanted: String,
}

/// The frame of a call: the method with the path, the key, and the body.
pub fn push_frame(input: &mut String, asked: &str) -> Result<(), Fail> {
    let (line, rest) = asked.split_once(" | ").ok_or("a key")?;
    let (key, body) = rest.split_once(" | ").ok_or("a body")?;
    write!(input, "{line} HTTP/1.1\r\nAM-Key: {key}\r\n")?;
    let length = body.len();
    write!(input, "Content-Length: {length}\r\n\r\n{body}")?;
    Ok(())
}

/// The response of a call: the status with its phrase, the place and whether it is stored, and the answer.
fn push_response(wanted: &mut String, shown: &str) -> Result<(), Fail> {
    let (status, rest) = shown.split_once(" | ").ok_or("a place")?;
    let (place, answer) = rest.split_once(" | ").ok_or("an answer")?;
    let length = answer.len();
    write!(
        wanted,
        "HTTP/1.1 {status}\r\nContent-Type: application/json\r\n"
    )?;
    write!(wanted, "Content-Length: {length}\r\n")?;
    if let Some((at, stored)) = place.split_once(' ') {
        write!(wanted, "AM-At: {at}\r\nAM-Stored: {stored}\r\n")?;
    }
    write!(wanted, "\r\n{answer}")?;
    Ok(())
}

/// What the calls of these rows ask, and how they are answered.
pub fn session_of(alloc: Global, rows: &str) -> Result<Exchanged, Fail> {
    let mut all = Exchanged {
        calls: 0,
        input: String::new(alloc),
        wanted: String::new(alloc),
    };
    for row in rows.lines() {
        if !row.starts_with('#') {
            let (asked, shown) = row.split_once(" -> ").ok_or("a response")?;
            push_frame(&mut all.input, asked)?;
            push_response(&mut all.wanted, shown)?;
            all.calls = all.calls.wrapping_add(1);
        }
    }
    Ok(all)
}
