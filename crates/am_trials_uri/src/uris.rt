//! Worked URIs, and paths with their rules: answers with ample memory, from outside.

mod rows;

use self::rows::{PATHS, URIS};
use am_trials_words::{parts, try_answers, try_each};
use am_types::{Glob, PathRule, Rules, Text, Uri};
use am_uri::{parse_uri, passes_path};
use std::alloc::{AllocError, Global};
use std::test::Fail;

/// The answer when the text is read as a URI.
fn uri_read(alloc: Global, text: &str) -> Result<String, AllocError> {
    let whole = Text::of(alloc, text)?;
    match parse_uri(alloc, &whole) {
        Ok(uri) => {
            let shown = shown_of(alloc, &uri, &whole);
            drop(uri);
            shown
        }
        Err(fault) => format!(in alloc; "{fault:?}"),
    }
}

/// The parts of a URI that was read from the text.
fn shown_of(alloc: Global, uri: &Uri, whole: &Text) -> Result<String, AllocError> {
    if uri.text == *whole {
        shown(alloc, uri)
    } else {
        String::from_str(alloc, "another text")
    }
}

fn shown(alloc: Global, uri: &Uri) -> Result<String, AllocError> {
    let mut parts = String::from_str(alloc, uri.scheme.as_str())?;
    if let Some(host) = &uri.profile.host {
        parts.push_str(" host=")?;
        parts.push_str(host.as_str())?;
    }
    if let Some(port) = uri.profile.port {
        let port = format!(in alloc; " port={port}")?;
        parts.push_str(port.as_str())?;
    }
    parts.push_str(" path=")?;
    parts.push_str(uri.profile.path.as_str())?;
    Ok(parts)
}

#[test]
fn uris_are_read(rt: HostRuntime) -> Result<(), Fail> {
    try_answers(URIS, " -> ", 13, |text| Ok(uri_read(rt.alloc(), text)?))
}

/// The front, and then as many bytes `a` as make this length.
fn filled(alloc: Global, front: &str, len: usize) -> Result<String, AllocError> {
    let mut text = String::from_str(alloc, front)?;
    for _ in front.len()..len {
        text.push('a')?;
    }
    Ok(text)
}

/// A request with such a text is refused earlier.
#[test]
fn long_uris_are_refused_unread(rt: HostRuntime) -> Result<(), Fail> {
    let alloc = rt.alloc();
    for front in ["http://h/", "", "1:", "http://h:x", "http://h/%2"] {
        let read = uri_read(alloc, filled(alloc, front, 1025)?.as_str())?;
        assert_eq!(rt; read.as_str(), "TooLong", "at {front}");
    }
    Ok(())
}

/// The rule that the word stands for.
fn rule(alloc: Global, word: &str) -> Result<PathRule, Fail> {
    let (kind, value) = word.split_once('=').ok_or("a rule")?;
    let value = Text::of(alloc, value)?;
    match kind {
        "prefix" => Ok(PathRule::Prefix(value)),
        "suffix" => Ok(PathRule::Suffix(value)),
        _ => Ok(PathRule::Pattern(Glob::new(value).ok().ok_or("a pattern")?)),
    }
}

/// Whether the path passes the rule that the word stands for.
fn passing(alloc: Global, word: &str, path: &str) -> Result<&'static str, Fail> {
    let path = Text::of(alloc, path)?;
    let rule = rule(alloc, word)?;
    let passes = passes_path(Rules::Profile, &rule, &path);
    drop(rule);
    Ok(if passes { "passes" } else { "fails" })
}

#[test]
fn paths_pass_their_rules(rt: HostRuntime) -> Result<(), Fail> {
    try_each(PATHS, 6, |line| {
        let (word, path, wanted) = parts(line);
        assert_eq!(rt; passing(rt.alloc(), word, path)?, wanted, "{line}");
        Ok(())
    })
}
