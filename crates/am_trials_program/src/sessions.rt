//! Runs of the program, and how each ends.
ghost use Rattle.std.specs.Prelude.{◌<◌};

mod rows;

use self::rows::ROWS;
use am_trials_runs::{Asked, Left, Outside, QUIET, Runtime, try_run};
use am_trials_spelling::{EMPTY, spelled_out};
use am_trials_words::{parts, try_each};
use std::alloc::Global;
use std::process::Abort;
use std::test::Fail;

/// Three packages, of which the last asks to see what has the action x.A.
const ASKING: &str = r#"system_key = "sys"
[[package]]
key = "k1"
[package.manifest]
package = "com.one"
activity = [{ name = ".Main", exported = true, intent-filter = [{ action = ["x.A"] }] }]
[[package]]
key = "k2"
[package.manifest]
package = "com.two"
activity = [{ name = ".Other", exported = true, intent-filter = [{ action = ["x.B"] }] }]
[[package]]
key = "k3"
[package.manifest]
package = "com.three"
queries = { intent = [{ action = "x.A" }] }"#;

/// A package that asks to see what has no action.
const UNASKED: &str = r#"system_key = "sys"
[[package]]
key = "k1"
[package.manifest]
package = "com.one"
queries = { intent = [{ scheme = "http" }] }"#;

/// The device file with this name.
pub fn device_file(name: &str) -> &'static str {
    match name {
        "not_toml" => "x = ",
        "bare" => "system_key = 'sys'",
        "taken" => "system_key = 'ka'",
        "asking" => ASKING,
        "unasked" => UNASKED,
        _ => EMPTY,
    }
}

/// The first call of the object fails, or of each of the objects.
fn failing(object: &'static str) -> Outside
    ensures { 0 < result.most }
{
    Outside {
        failing: object,
        ..QUIET
    }
}

/// The objects whose first calls may fail, several between `+`.
const OBJECTS: [&str; 9] = [
    "files",
    "input",
    "output",
    "errors",
    "store",
    "network",
    "files+network",
    "store+network",
    "network+errors",
];

/// The objects whose first calls fail.
fn object(name: &str) -> &'static str {
    OBJECTS
        .iter()
        .find(|known| **known == name)
        .copied()
        .unwrap_or("")
}

/// The status, and the errors.
fn end(alloc: Global, end: &str) -> Result<(u8, Vec<u8>), Fail> {
    let (status, line) = end.split_once(' ').ok_or("a line")?;
    let status = status.parse::<u8>().ok().ok_or("a status")?;
    let mut errors = text_of(alloc, line)?;
    if !errors.is_empty() {
        errors.push(b'\n')?;
    }
    Ok((status, errors))
}

/// The text that is spelled out; `-` is the empty one.
pub fn text_of(alloc: Global, text: &str) -> Result<Vec<u8>, Fail> {
    spelled_out(alloc, if text == "-" { "" } else { text })
}

/// The run of the row ended so, and wrote this output.
pub fn try_end(
    rt: &impl Abort,
    alloc: Global,
    left: &Left,
    wanted: &str,
    output: &str,
    row: &str,
) -> Result<(), Fail> {
    let (status, errors) = end(alloc, wanted)?;
    let output = text_of(alloc, output)?;
    assert!(rt;
        left.is(status, output.as_slice(), errors.as_slice()),
        "{row}"
    );
    Ok(())
}

/// Runs the row: what it ends with, its output and its errors are as the row has them.
fn try_row(rt: &(impl Runtime + Abort), alloc: Global, row: &str) -> Result<(), Fail> {
    let (run, input, rest) = parts(row);
    let (device, run) = run.split_once(' ').ok_or("a device")?;
    let (name, words) = run.split_once(' ').ok_or("words")?;
    let (wanted, output) = rest.split_once(" | ").ok_or("an output")?;
    let input = text_of(alloc, input)?;
    let outside = failing(object(name));
    let asked = Asked::new(words, device_file(device), input.as_slice());
    let left = try_run(rt, alloc, &asked, &outside)?;
    try_end(rt, alloc, &left, wanted, output, row)
}

#[test]
fn ends_with_a_status(rt: HostRuntime) -> Result<(), Fail> {
    try_each(ROWS, 24, |row| try_row(&rt, rt.alloc(), row))
}
