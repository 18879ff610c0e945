//! Tables of rows that the tests try, and the words of a row.
#![tactic(auto)]

mod lending;
mod tables;

pub use self::lending::lent;
pub use self::tables::{try_answers, try_documents, try_each, try_sections};
use am_types::{List, Text};
use std::alloc::{AllocError, Global};

/// The words of a line, as texts.
pub fn texts(alloc: Global, words: &str) -> Result<List<Text>, AllocError> {
    let mut texts = Vec::new(alloc);
    for word in words.split(' ') {
        texts.push(Text::of(alloc, word)?)?;
    }
    Ok(List::new(texts))
}

/// The text around `<3:a>`, the number and the part in it; none if the text has nothing like it.
fn repeated(text: &str) -> Option<(&str, usize, &str, &str)> {
    let (front, behind) = text.split_once('<')?;
    let (count, behind) = behind.split_once(':')?;
    let (part, behind) = behind.split_once('>')?;
    let count = count.parse::<usize>().ok()?;
    Some((front, count, part, behind))
}

/// The text, with the first `<3:a>` in it spelled out as `aaa`.
pub fn spelled_out(alloc: Global, text: &str) -> Result<String, AllocError> {
    let Some((front, count, part, behind)) = repeated(text) else {
        return String::from_str(alloc, text);
    };
    let mut all = String::from_str(alloc, front)?;
    for _ in 0..count {
        all.push_str(part)?;
    }
    all.push_str(behind)?;
    Ok(all)
}

/// The parts of a row after bars; a row with fewer has empty ones, which no row expects.
pub fn parts(line: &str) -> (&str, &str, &str) {
    let (first, rest) = line.split_once(" | ").unwrap_or((line, ""));
    let (second, wanted) = rest.split_once(" | ").unwrap_or((rest, "no row"));
    (first, second, wanted)
}
