//! Lines that spell bytes out.
use std::alloc::Global;
use std::test::Fail;

/// The line, with `\r`, `\n`, `\t`, `\x7f` and `<3:a>` spelled out.
pub fn spelled_out(alloc: Global, line: &str) -> Result<Vec<u8>, Fail> {
    let mut bytes = Vec::new(alloc);
    let (front, repeated) = line.split_once('<').unwrap_or((line, ""));
    push_unescaped(&mut bytes, front)?;
    if repeated.is_empty() {
        return Ok(bytes);
    }
    for part in repeated.split('<') {
        let (count, part) = part.split_once(':').ok_or("a count")?;
        let (part, behind) = part.split_once('>').ok_or("a part")?;
        for _ in 0..count.parse::<usize>().ok().ok_or("a number")? {
            push_unescaped(&mut bytes, part)?;
        }
        push_unescaped(&mut bytes, behind)?;
    }
    Ok(bytes)
}

fn push_unescaped(bytes: &mut Vec<u8>, text: &str) -> Result<(), Fail> {
    let (front, escapes) = text.split_once('\\').unwrap_or((text, ""));
    bytes.extend_from_slice(front.as_bytes())?;
    if escapes.is_empty() {
        return Ok(());
    }
    for part in escapes.split('\\') {
        push_escape(bytes, part)?;
    }
    Ok(())
}

/// Adds the byte of an escape, without its backslash, and what follows it.
fn push_escape(bytes: &mut Vec<u8>, part: &str) -> Result<(), Fail> {
    let (letter, behind) = part.split_at_checked(1).ok_or("an escape")?;
    match letter {
        "r" => bytes.push(b'\r')?,
        "n" => bytes.push(b'\n')?,
        "t" => bytes.push(b'\t')?,
        _ => return push_hex(bytes, behind),
    }
    bytes.extend_from_slice(behind.as_bytes())?;
    Ok(())
}

/// Adds the byte of two digits, and what follows them.
fn push_hex(bytes: &mut Vec<u8>, part: &str) -> Result<(), Fail> {
    let (digits, behind) = part.split_at_checked(2).ok_or("two digits")?;
    bytes.push(u8::from_str_radix(digits, 16).ok().ok_or("a byte")?)?;
    bytes.extend_from_slice(behind.as_bytes())?;
    Ok(())
}
